use crate::value::Value;

/// What stands behind the base of an address.
#[derive(Clone, Copy)]
pub enum Offset {
    Missing,
    Bracket(Value),
    Parenthesis(Value),
}
