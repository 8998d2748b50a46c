/// A sign of the text.
#[derive(Clone, Copy)]
pub enum Punctuator {
    Colon,
    Comma,
    LeftBracket,
    RightBracket,
    LeftParenthesis,
    RightParenthesis,
    Star,
    Plus,
    Minus,
    Bang,
    Percent,
    /// `||`
    ParallelBars,
}
