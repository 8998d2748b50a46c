/// The kinds of tokens.
#[derive(Debug, Clone, Copy, PartialEq, Eq)]
pub enum TokenKind {
    /// A name, a mnemonic, a directive, a unit or a register.
    Word,
    /// A decimal number, or `0x` and hexadecimal digits. It has no sign.
    Number,
    /// A text with its two quotes.
    Text,
    /// One of `:,[]()*+-!%`, or `||`.
    Punctuator,
    /// A newline, with the carriage return just before it if there is one.
    NewLine,
}
