/// The name of a directive.
#[derive(Clone, Copy)]
pub enum Keyword {
    Sect,
    Word,
    Half,
    Byte,
    Space,
    Align,
    Global,
    Weak,
    Hidden,
    Common,
    NearCommon,
    Set,
}
