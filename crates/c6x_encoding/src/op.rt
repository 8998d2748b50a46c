use crate::access::Access;
use crate::arith::Arith;
use crate::first::First;
use crate::move_kind::MoveKind;
use crate::unit_kind::UnitKind;
use c6x_base::Side;

/// What an instruction does, with the parts of its word. A `field`, `constant` or `offset` is the
/// raw bits of the word's field; registers are numbers below 32.
#[derive(Clone, Copy, Debug, PartialEq, Eq)]
pub enum Op {
    /// An operation of .L, .S, .D or .M on two operands. Where `cross` is true, the second one is a
    /// register of the other side.
    Two {
        unit: UnitKind,
        arith: Arith,
        side: Side,
        cross: bool,
        first: First,
        second: u8,
        dst: u8,
    },
    Move {
        kind: MoveKind,
        side: Side,
        constant: u16,
        dst: u8,
    },
    /// B with a displacement in words from the fetch packet.
    Branch {
        side: Side,
        field: u32,
    },
    Callp {
        side: Side,
        field: u32,
    },
    /// BNOP with a displacement, and the cycles that it waits.
    BranchNop {
        side: Side,
        field: u16,
        wait: u8,
    },
    /// B to a register of side B, or, where `cross` is true, of side A.
    BranchReg {
        cross: bool,
        source: u8,
    },
    BranchRegNop {
        cross: bool,
        source: u8,
        wait: u8,
    },
    AddKpc {
        field: u8,
        wait: u8,
        dst: u8,
    },
    /// NOP of 1 to 9 cycles.
    Nop {
        cycles: u8,
    },
    /// A load or a store with a base register and an offset register or constant of five bits.
    Short {
        access: Access,
        unit_side: Side,
        value_side: Side,
        mode: u8,
        offset: u8,
        base: u8,
        register: u8,
    },
    /// A load or a store with the base B14 or B15 and an offset of 15 bits.
    Long {
        access: Access,
        value_side: Side,
        base15: bool,
        offset: u16,
        register: u8,
    },
}
