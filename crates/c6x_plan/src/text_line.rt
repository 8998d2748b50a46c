/// A line of a text that says something.
#[derive(Clone, Copy, Debug)]
pub struct TextLine<'a> {
    /// Its number, counted from 1.
    pub number: u32,
    /// Its bytes, without the newline and a carriage return just before it.
    pub bytes: &'a [u8],
}
