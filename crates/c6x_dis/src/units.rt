ghost use Rattle.std.specs.Prelude.{◌≡◌, ◌+◌, ◌≤◌, ◌++◌, ◌∷◌, [], length};
ghost use Rattle.c6x_dis.specs.Atoms.{bytes_of};
ghost use Rattle.c6x_dis.specs.Shown.{mnemonic_for, path_for, path_bytes, side_digit, unit_atoms, unit_for, unit_letter};

use c6x_asm_lines::{DataPath, Mnemonic, Unit};
use c6x_base::{Line, Side};
use c6x_encoding::{Op, UnitKind};

/// The mnemonic of an instruction.
pub fn mnemonic_for(op: Op) -> Mnemonic
    ensures { result ≡ mnemonic_for op }
{
    match op {
        Op::Two { arith, .. } => Mnemonic::Two(arith),
        Op::Move { kind, .. } => Mnemonic::Move(kind),
        Op::Branch { .. } | Op::BranchReg { .. } => Mnemonic::B,
        Op::Callp { .. } => Mnemonic::Callp,
        Op::BranchNop { .. } | Op::BranchRegNop { .. } => Mnemonic::Bnop,
        Op::AddKpc { .. } => Mnemonic::AddKpc,
        Op::Nop { .. } => Mnemonic::Nop,
        Op::Short { access, .. } | Op::Long { access, .. } => Mnemonic::Memory(access),
    }
}

fn path_for(cross: bool) -> DataPath
    ensures { result ≡ path_for cross }
{
    if cross {
        DataPath::Cross
    } else {
        DataPath::Own
    }
}

/// The unit of an instruction, which NOP has none of; the long form is .D2's.
pub fn unit_for(op: Op) -> Option<Unit>
    ensures { result ≡ unit_for op }
{
    let (kind, side, path) = match op {
        Op::Two {
            unit,
            side,
            cross,
            ..
        } => (unit, side, path_for(cross)),
        Op::Move { side, .. }
        | Op::Branch { side, .. }
        | Op::Callp { side, .. }
        | Op::BranchNop { side, .. } => (UnitKind::S, side, DataPath::Own),
        Op::BranchReg { cross, .. } | Op::BranchRegNop { cross, .. } => {
            (UnitKind::S, Side::B, path_for(cross))
        }
        Op::AddKpc { .. } => (UnitKind::S, Side::B, DataPath::Own),
        Op::Nop { .. } => return None,
        Op::Short {
            unit_side,
            value_side,
            ..
        } => (UnitKind::D, unit_side, DataPath::Value(value_side)),
        Op::Long { value_side, .. } => (UnitKind::D, Side::B, DataPath::Value(value_side)),
    };
    Some(Unit { kind, side, path })
}

fn put_digit(line: &mut Line, side: Side)
    requires { length line.old + 1 ≤ 256 }
    ensures { line.new ≡ line.old ++ side_digit side ∷ [] }
{
    match side {
        Side::A => line.push(b"1"),
        Side::B => line.push(b"2"),
    }
}

fn put_path(line: &mut Line, path: DataPath)
    requires { length line.old + 2 ≤ 256 }
    ensures is { line.new ≡ line.old ++ path_bytes path }
    ensures short { length line.new ≤ length line.old + 2 }
{
    match path {
        DataPath::Own => {}
        DataPath::Cross => line.push(b"X"),
        DataPath::Value(side) => {
            line.push(b"T");
            put_digit(line, side);
        }
    }
}

fn put_kind(line: &mut Line, kind: UnitKind)
    requires { length line.old + 2 ≤ 256 }
    ensures { line.new ≡ line.old ++ 46 ∷ unit_letter kind ∷ [] }
{
    match kind {
        UnitKind::L => line.push(b".L"),
        UnitKind::S => line.push(b".S"),
        UnitKind::D => line.push(b".D"),
        UnitKind::M => line.push(b".M"),
    }
}

/// Puts the word of a unit and a space: nothing where there is none.
pub fn put_unit(line: &mut Line, unit: Option<Unit>)
    requires { length line.old + 6 ≤ 256 }
    ensures is { line.new ≡ line.old ++ bytes_of (unit_atoms unit) }
    ensures short { length line.new ≤ length line.old + 6 }
{
    if let Some(unit) = unit {
        put_kind(line, unit.kind);
        put_digit(line, unit.side);
        put_path(line, unit.path);
        line.push(b" ");
    }
}
