use crate::symbol_attribute::SymbolAttribute;
use c6x_asm_lines::{Field, Word};
use c6x_base::Row;

/// A directive with its operands.
#[derive(Drop)]
pub enum Directive {
    /// `.sect`: the offset of its name in the text, and the name's length.
    Section {
        at: u32,
        len: u32,
    },
    /// `.word`, `.half` or `.byte`: the bytes of each number, and the numbers.
    Numbers {
        size: u32,
        fields: Row<Field>,
    },
    Space(u32),
    Align(u32),
    /// `.global`, `.weak` or `.hidden`.
    Attribute {
        attribute: SymbolAttribute,
        name: Word,
    },
    /// `.common`, or `.nearcommon`.
    Common {
        name: Word,
        size: u32,
        align: u32,
        near: bool,
    },
    /// `.set`: the value modulo 2^32.
    Set {
        name: Word,
        value: u32,
    },
}
