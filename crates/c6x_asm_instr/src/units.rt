ghost use Rattle.std.specs.Prelude.{◌≡◌};
ghost use Rattle.c6x_asm_instr.specs.Instructions.{other_side, is_cross, is_own, names_value, has_form, is_d, is_s, is_swapped};

use c6x_asm_lines::DataPath;
use c6x_base::Side;
use c6x_encoding::{Arith, UnitKind};

/// The other side, whose register a cross path reads.
pub fn other_side(side: Side) -> Side
    ensures { result ≡ other_side side }
{
    match side {
        Side::A => Side::B,
        Side::B => Side::A,
    }
}

pub fn is_cross(path: DataPath) -> bool
    ensures { result ≡ is_cross path }
{
    matches!(path, DataPath::Cross)
}

pub fn is_own(path: DataPath) -> bool
    ensures { result ≡ is_own path }
{
    matches!(path, DataPath::Own)
}

pub fn names_value(path: DataPath) -> bool
    ensures { result ≡ names_value path }
{
    matches!(path, DataPath::Value(_))
}

#[tactic(auto, unfolding(c6x_encoding::specs::Encoded::l_code, c6x_encoding::specs::Encoded::s_code, c6x_encoding::specs::Encoded::d_code, c6x_encoding::specs::Encoded::m_code))]
pub fn has_form(unit: UnitKind, arith: Arith, constant: bool) -> bool
    ensures { result ≡ has_form unit arith constant }
{
    match (unit, arith, constant) {
        (
            UnitKind::L,
            Arith::Add
            | Arith::Sub
            | Arith::And
            | Arith::Or
            | Arith::Xor
            | Arith::CmpEq
            | Arith::CmpGt
            | Arith::CmpLt,
            _,
        ) => true,
        (UnitKind::L, Arith::CmpGtu | Arith::CmpLtu, false) => true,
        (
            UnitKind::S,
            Arith::Add
            | Arith::Sub
            | Arith::And
            | Arith::Or
            | Arith::Xor
            | Arith::Shl
            | Arith::Shr
            | Arith::Shru,
            _,
        ) => true,
        (UnitKind::D, Arith::Add | Arith::Sub, _) => true,
        (UnitKind::M, Arith::Mpy, _) => true,
        (UnitKind::M, Arith::Mpyu, false) => true,
        _ => false,
    }
}

pub fn is_d(unit: UnitKind) -> bool
    ensures { result ≡ is_d unit }
{
    matches!(unit, UnitKind::D)
}

pub fn is_s(unit: UnitKind) -> bool
    ensures { result ≡ is_s unit }
{
    matches!(unit, UnitKind::S)
}

/// Whether the second operand is written first, and a constant has no sign: in .D and in shifts.
pub fn is_swapped(unit: UnitKind, arith: Arith) -> bool
    ensures { result ≡ is_swapped unit arith }
{
    is_d(unit) || matches!(arith, Arith::Shl | Arith::Shr | Arith::Shru)
}
