use crate::address::Address;
use crate::value::Value;

/// An operand of an instruction or a directive.
#[derive(Clone, Copy)]
pub enum Operand {
    /// The offset of the first byte between the quotes, and the number of bytes there.
    Text { at: u32, len: u32 },
    Address(Address),
    Value(Value),
}
