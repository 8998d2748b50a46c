ghost use Rattle.std.specs.Prelude.{◌≡◌, ◌≤◌};
ghost use Rattle.c6x_encoding.specs.Values.{size_of};
ghost use Rattle.c6x_asm_instr.specs.Instructions.{is_store, memory_made, memory_with, memory_on};

use c6x_asm_lines::{
    AsmRule, DataPath, Operand, Place, RelocatableOp, both, place_of, register_operand,
};
use c6x_base::Side;
use c6x_encoding::{Access, Op};

/// How many bytes a load or a store accesses.
pub fn size_of(access: Access) -> u32
    ensures is { result ≡ size_of access }
    ensures some { 1 ≤ result }
    ensures few { result ≤ 4 }
{
    match access {
        Access::Ldbu | Access::Ldb | Access::Stb => 1,
        Access::Ldhu | Access::Ldh | Access::Sth => 2,
        Access::Ldw | Access::Stw => 4,
    }
}

/// Whether the access is a store, whose register is written first.
pub fn is_store(access: Access) -> bool
    ensures { result ≡ is_store access }
{
    matches!(access, Access::Stb | Access::Sth | Access::Stw)
}

fn memory_made(
    access: Access,
    unit_side: Side,
    value_side: Side,
    register: u8,
    place: Place,
) -> RelocatableOp
    ensures { result ≡ memory_made access unit_side value_side register place }
{
    match place {
        Place::Short { mode, offset, base } => {
            let op = Op::Short {
                access,
                unit_side,
                value_side,
                mode,
                offset,
                base,
                register,
            };
            RelocatableOp {
                op,
                relocation: None,
            }
        }
        Place::Long {
            base15,
            offset,
            relocation,
        } => {
            let op = Op::Long {
                access,
                value_side,
                base15,
                offset,
                register,
            };
            RelocatableOp { op, relocation }
        }
    }
}

#[tactic(auto, unfolding(crate::specs::Instructions::memory_with))]
fn memory_with(
    text: &[u8],
    access: Access,
    unit_side: Side,
    value_side: Side,
    address: Operand,
    value: Operand,
) -> Result<RelocatableOp, AsmRule>
    ensures { result ≡ memory_with text.now access unit_side value_side address value }
{
    let place = place_of(text, size_of(access), unit_side, address);
    let (place, register) = both(place, register_operand(value_side, value))?;
    Ok(memory_made(access, unit_side, value_side, register, place))
}

/// A load or a store.
pub fn memory_on(
    text: &[u8],
    access: Access,
    side: Side,
    path: DataPath,
    operands: &[Operand],
) -> Result<RelocatableOp, AsmRule>
    ensures { result ≡ memory_on text.now access side path operands.now }
{
    match (path, operands) {
        (DataPath::Value(value_side), [x, y]) => {
            if is_store(access) {
                memory_with(text, access, side, value_side, *y, *x)
            } else {
                memory_with(text, access, side, value_side, *x, *y)
            }
        }
        _ => Err(AsmRule::Syntax),
    }
}
