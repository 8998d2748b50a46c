ghost use Rattle.std.specs.Prelude.{◌≡◌, ◌<◌, ◌≤◌, IfOk};
ghost use Rattle.c6x_asm_instr.specs.Instructions.{is_register, target_register, takes_register, branch_of, branch_nop_of, link_register, callp_of, add_kpc_of, nop_of};

use crate::units::is_cross;
use c6x_asm_lines::{
    AsmRule, Operand, Primary, Range, RelocatableOp, Unit, Value, both, constant_operand,
    field_operand, register_operand, same_side,
};
use c6x_base::Side;
use c6x_encoding::Op;
use c6x_reloc::RelocKind;

const FAR: Range = Range {
    below: 1_048_576,
    least: 0,
    most: 1_048_575,
    step: 1,
    modulus: 2_097_152,
};

const NEAR: Range = Range {
    below: 2_048,
    least: 0,
    most: 2_047,
    step: 1,
    modulus: 4_096,
};

const CLOSE: Range = Range {
    below: 64,
    least: 0,
    most: 63,
    step: 1,
    modulus: 128,
};

const WAITS: Range = Range {
    below: 0,
    least: 0,
    most: 7,
    step: 1,
    modulus: 8,
};

const CYCLES: Range = Range {
    below: 0,
    least: 1,
    most: 9,
    step: 1,
    modulus: 16,
};

fn is_register(operand: Operand) -> bool
    ensures { result ≡ is_register operand }
{
    match operand {
        Operand::Value(Value::Primary(Primary::Register(_))) => true,
        _ => false,
    }
}

fn takes_register(unit: Unit, target: Operand) -> bool
    ensures { result ≡ takes_register unit target }
{
    is_register(target) || is_cross(unit.path)
}

fn target_register(unit: Unit, target: Operand) -> Result<u8, AsmRule>
    ensures { result ≡ target_register unit target }
{
    let side = if is_cross(unit.path) {
        Side::A
    } else {
        Side::B
    };
    let number = register_operand(side, target)?;
    if same_side(unit.side, Side::B) {
        Ok(number)
    } else {
        Err(AsmRule::Operand)
    }
}

/// B.
pub fn branch_of(text: &[u8], unit: Unit, operands: &[Operand]) -> Result<RelocatableOp, AsmRule>
    ensures { result ≡ branch_of text.now unit operands.now }
{
    match operands {
        [target] => {
            if takes_register(unit, *target) {
                let source = target_register(unit, *target)?;
                let op = Op::BranchReg {
                    cross: is_cross(unit.path),
                    source,
                };
                Ok(RelocatableOp {
                    op,
                    relocation: None,
                })
            } else {
                let field = field_operand(text, RelocKind::PCR_S21, FAR, *target)?;
                let op = Op::Branch {
                    side: unit.side,
                    field: field.bits,
                };
                Ok(RelocatableOp {
                    op,
                    relocation: field.relocation,
                })
            }
        }
        _ => Err(AsmRule::Syntax),
    }
}

/// BNOP.
pub fn branch_nop_of(
    text: &[u8],
    unit: Unit,
    operands: &[Operand],
) -> Result<RelocatableOp, AsmRule>
    ensures { result ≡ branch_nop_of text.now unit operands.now }
{
    match operands {
        [target, wait] => {
            let wait = constant_operand(WAITS, *wait);
            if takes_register(unit, *target) {
                let (source, wait) = both(target_register(unit, *target), wait)?;
                let op = Op::BranchRegNop {
                    cross: is_cross(unit.path),
                    source,
                    wait: wait as u8,
                };
                Ok(RelocatableOp {
                    op,
                    relocation: None,
                })
            } else {
                let field = field_operand(text, RelocKind::PCR_S12, NEAR, *target);
                let (field, wait) = both(field, wait)?;
                let op = Op::BranchNop {
                    side: unit.side,
                    field: field.bits as u16,
                    wait: wait as u8,
                };
                Ok(RelocatableOp {
                    op,
                    relocation: field.relocation,
                })
            }
        }
        _ => Err(AsmRule::Syntax),
    }
}

fn link_register(side: Side, operand: Operand) -> Result<u8, AsmRule>
    ensures { result ≡ link_register side operand }
{
    let number = register_operand(side, operand)?;
    if number == 3 {
        Ok(number)
    } else {
        Err(AsmRule::Operand)
    }
}

/// CALLP.
pub fn callp_of(text: &[u8], unit: Unit, operands: &[Operand]) -> Result<RelocatableOp, AsmRule>
    ensures { result ≡ callp_of text.now unit operands.now }
{
    match operands {
        [target, link] => {
            let field = field_operand(text, RelocKind::PCR_S21, FAR, *target);
            let (field, _) = both(field, link_register(unit.side, *link))?;
            let op = Op::Callp {
                side: unit.side,
                field: field.bits,
            };
            Ok(RelocatableOp {
                op,
                relocation: field.relocation,
            })
        }
        _ => Err(AsmRule::Syntax),
    }
}

/// ADDKPC.
pub fn add_kpc_of(text: &[u8], operands: &[Operand]) -> Result<RelocatableOp, AsmRule>
    ensures { result ≡ add_kpc_of text.now operands.now }
{
    match operands {
        [target, dst, wait] => {
            let field = field_operand(text, RelocKind::PCR_S7, CLOSE, *target);
            let dst = register_operand(Side::B, *dst);
            let wait = constant_operand(WAITS, *wait);
            let (field, (dst, wait)) = both(field, both(dst, wait))?;
            let op = Op::AddKpc {
                field: field.bits as u8,
                wait: wait as u8,
                dst,
            };
            Ok(RelocatableOp {
                op,
                relocation: field.relocation,
            })
        }
        _ => Err(AsmRule::Syntax),
    }
}

/// NOP, of one cycle where no number follows it.
pub fn nop_of(operands: &[Operand]) -> Result<RelocatableOp, AsmRule>
    ensures { result ≡ nop_of operands.now }
{
    match operands {
        [] => Ok(RelocatableOp {
            op: Op::Nop { cycles: 1 },
            relocation: None,
        }),
        [cycles] => {
            let cycles = constant_operand(CYCLES, *cycles)?;
            Ok(RelocatableOp {
                op: Op::Nop {
                    cycles: cycles as u8,
                },
                relocation: None,
            })
        }
        _ => Err(AsmRule::Syntax),
    }
}
