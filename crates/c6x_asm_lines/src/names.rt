ghost use Rattle.std.specs.Prelude.{◌≡◌, codes};
ghost use Rattle.std.specs.Str.{bytes_eq, str_eq_ignore_ascii_case};
ghost use Rattle.c6x_asm_lines.specs.OperandNames.{arith_name, move_name, access_name, mnemonic_name, mnemonic_of, kind_name, kind_of, unit_side, crossing_kind, unit_kind, memory_kind, cross_path, value_path, unit_with, unit_of};

use crate::bytes::same_bytes;
use crate::data_path::DataPath;
use crate::mnemonic::Mnemonic;
use crate::named::{Names, row_named};
use crate::unit::Unit;
use c6x_base::Side;
use c6x_encoding::{Access, Arith, MoveKind, UnitKind};
use c6x_reloc::RelocKind;

const MNEMONICS: [Mnemonic; 31] = [
    Mnemonic::Two(Arith::Add),
    Mnemonic::Two(Arith::Sub),
    Mnemonic::Two(Arith::And),
    Mnemonic::Two(Arith::Or),
    Mnemonic::Two(Arith::Xor),
    Mnemonic::Two(Arith::CmpEq),
    Mnemonic::Two(Arith::CmpGt),
    Mnemonic::Two(Arith::CmpLt),
    Mnemonic::Two(Arith::CmpGtu),
    Mnemonic::Two(Arith::CmpLtu),
    Mnemonic::Two(Arith::Shl),
    Mnemonic::Two(Arith::Shr),
    Mnemonic::Two(Arith::Shru),
    Mnemonic::Two(Arith::Mpy),
    Mnemonic::Two(Arith::Mpyu),
    Mnemonic::Move(MoveKind::Mvk),
    Mnemonic::Move(MoveKind::Mvkh),
    Mnemonic::Move(MoveKind::Addk),
    Mnemonic::B,
    Mnemonic::Bnop,
    Mnemonic::Callp,
    Mnemonic::AddKpc,
    Mnemonic::Nop,
    Mnemonic::Memory(Access::Ldhu),
    Mnemonic::Memory(Access::Ldbu),
    Mnemonic::Memory(Access::Ldb),
    Mnemonic::Memory(Access::Stb),
    Mnemonic::Memory(Access::Ldh),
    Mnemonic::Memory(Access::Sth),
    Mnemonic::Memory(Access::Ldw),
    Mnemonic::Memory(Access::Stw),
];

const KINDS: [RelocKind; 28] = [
    RelocKind::NONE,
    RelocKind::ABS32,
    RelocKind::ABS16,
    RelocKind::ABS8,
    RelocKind::PCR_S21,
    RelocKind::PCR_S12,
    RelocKind::PCR_S7,
    RelocKind::ABS_S16,
    RelocKind::ABS_L16,
    RelocKind::ABS_H16,
    RelocKind::SBR_U15_B,
    RelocKind::SBR_U15_H,
    RelocKind::SBR_U15_W,
    RelocKind::SBR_S16,
    RelocKind::SBR_L16_B,
    RelocKind::SBR_L16_H,
    RelocKind::SBR_L16_W,
    RelocKind::SBR_H16_B,
    RelocKind::SBR_H16_H,
    RelocKind::SBR_H16_W,
    RelocKind::SBR_GOT_U15_W,
    RelocKind::SBR_GOT_L16_W,
    RelocKind::SBR_GOT_H16_W,
    RelocKind::DSBT_INDEX,
    RelocKind::JUMP_SLOT,
    RelocKind::ALIGN,
    RelocKind::FPHEAD,
    RelocKind::NOCMP,
];

fn arith_name(arith: Arith) -> &'static [u8]
    ensures { result.now ≡ arith_name arith }
{
    match arith {
        Arith::Add => b"ADD",
        Arith::Sub => b"SUB",
        Arith::And => b"AND",
        Arith::Or => b"OR",
        Arith::Xor => b"XOR",
        Arith::CmpEq => b"CMPEQ",
        Arith::CmpGt => b"CMPGT",
        Arith::CmpLt => b"CMPLT",
        Arith::CmpGtu => b"CMPGTU",
        Arith::CmpLtu => b"CMPLTU",
        Arith::Shl => b"SHL",
        Arith::Shr => b"SHR",
        Arith::Shru => b"SHRU",
        Arith::Mpy => b"MPY",
        Arith::Mpyu => b"MPYU",
    }
}

fn move_name(kind: MoveKind) -> &'static [u8]
    ensures { result.now ≡ move_name kind }
{
    match kind {
        MoveKind::Mvk => b"MVK",
        MoveKind::Mvkh => b"MVKH",
        MoveKind::Addk => b"ADDK",
    }
}

fn access_name(access: Access) -> &'static [u8]
    ensures { result.now ≡ access_name access }
{
    match access {
        Access::Ldhu => b"LDHU",
        Access::Ldbu => b"LDBU",
        Access::Ldb => b"LDB",
        Access::Stb => b"STB",
        Access::Ldh => b"LDH",
        Access::Sth => b"STH",
        Access::Ldw => b"LDW",
        Access::Stw => b"STW",
    }
}

/// The name of a mnemonic, in upper case.
pub fn mnemonic_name(mnemonic: Mnemonic) -> &'static [u8]
    ensures { result.now ≡ mnemonic_name mnemonic }
{
    match mnemonic {
        Mnemonic::Two(arith) => arith_name(arith),
        Mnemonic::Move(kind) => move_name(kind),
        Mnemonic::B => b"B",
        Mnemonic::Bnop => b"BNOP",
        Mnemonic::Callp => b"CALLP",
        Mnemonic::AddKpc => b"ADDKPC",
        Mnemonic::Nop => b"NOP",
        Mnemonic::Memory(access) => access_name(access),
    }
}

#[tactic(auto, using(crate::proofs::SameWords::same_letters_is))]
fn same_letters(word: &[u8], name: &[u8]) -> bool
    ensures { result ≡ str_eq_ignore_ascii_case word.now name.now }
{
    word.eq_ignore_ascii_case(name)
}

struct MnemonicNames;

impl Names<Mnemonic> for MnemonicNames {
    ghost is_name = { λ mnemonic word. str_eq_ignore_ascii_case word (mnemonic_name mnemonic) };

    fn is_name(row: Mnemonic, word: &[u8]) -> bool {
        same_letters(word, mnemonic_name(row))
    }
}

/// The mnemonic with this name, in either case.
#[tactic(auto, unfolding(crate::specs::OperandNames::mnemonic_of))]
pub fn mnemonic_of(word: &[u8]) -> Option<Mnemonic>
    ensures { result ≡ mnemonic_of word.now }
{
    row_named::<MnemonicNames, _>(&MNEMONICS, word)
}

fn kind_name(kind: RelocKind) -> &'static [u8]
    ensures { result.now ≡ kind_name kind }
{
    match kind {
        RelocKind::NONE => b"none",
        RelocKind::ABS32 => b"abs32",
        RelocKind::ABS16 => b"abs16",
        RelocKind::ABS8 => b"abs8",
        RelocKind::PCR_S21 => b"pcr_s21",
        RelocKind::PCR_S12 => b"pcr_s12",
        RelocKind::PCR_S7 => b"pcr_s7",
        RelocKind::ABS_S16 => b"abs_s16",
        RelocKind::ABS_L16 => b"abs_l16",
        RelocKind::ABS_H16 => b"abs_h16",
        RelocKind::SBR_U15_B => b"sbr_u15_b",
        RelocKind::SBR_U15_H => b"sbr_u15_h",
        RelocKind::SBR_U15_W => b"sbr_u15_w",
        RelocKind::SBR_S16 => b"sbr_s16",
        RelocKind::SBR_L16_B => b"sbr_l16_b",
        RelocKind::SBR_L16_H => b"sbr_l16_h",
        RelocKind::SBR_L16_W => b"sbr_l16_w",
        RelocKind::SBR_H16_B => b"sbr_h16_b",
        RelocKind::SBR_H16_H => b"sbr_h16_h",
        RelocKind::SBR_H16_W => b"sbr_h16_w",
        RelocKind::SBR_GOT_U15_W => b"sbr_got_u15_w",
        RelocKind::SBR_GOT_L16_W => b"sbr_got_l16_w",
        RelocKind::SBR_GOT_H16_W => b"sbr_got_h16_w",
        RelocKind::DSBT_INDEX => b"dsbt_index",
        RelocKind::JUMP_SLOT => b"jump_slot",
        RelocKind::ALIGN => b"align",
        RelocKind::FPHEAD => b"fphead",
        RelocKind::NOCMP => b"nocmp",
    }
}

struct KindNames;

impl Names<RelocKind> for KindNames {
    ghost is_name = { λ kind word. bytes_eq word (kind_name kind) };

    fn is_name(row: RelocKind, word: &[u8]) -> bool {
        same_bytes(word, kind_name(row))
    }
}

/// The relocation kind with this lower-case name.
#[tactic(auto, unfolding(crate::specs::OperandNames::kind_of))]
pub fn kind_of(word: &[u8]) -> Option<RelocKind>
    ensures { result ≡ kind_of word.now }
{
    row_named::<KindNames, _>(&KINDS, word)
}

fn unit_side(b: u8) -> Option<Side>
    ensures { result ≡ unit_side b }
{
    match b {
        b'1' => Some(Side::A),
        b'2' => Some(Side::B),
        _ => None,
    }
}

fn crossing_kind(b: u8) -> Option<UnitKind>
    ensures { result ≡ crossing_kind b }
{
    match b {
        b'L' | b'l' => Some(UnitKind::L),
        b'S' | b's' => Some(UnitKind::S),
        b'M' | b'm' => Some(UnitKind::M),
        _ => None,
    }
}

fn unit_kind(b: u8) -> Option<UnitKind>
    ensures { result ≡ unit_kind b }
{
    match b {
        b'D' | b'd' => Some(UnitKind::D),
        _ => crossing_kind(b),
    }
}

fn unit_with(kind: Option<UnitKind>, side: Option<Side>, path: Option<DataPath>) -> Option<Unit>
    ensures { result ≡ unit_with kind side path }
{
    match (kind, side, path) {
        (Some(kind), Some(side), Some(path)) => Some(Unit { kind, side, path }),
        _ => None,
    }
}

fn memory_kind(b: u8) -> Option<UnitKind>
    ensures { result ≡ memory_kind b }
{
    match b {
        b'D' | b'd' => Some(UnitKind::D),
        _ => None,
    }
}

fn cross_path(x: u8) -> Option<DataPath>
    ensures { result ≡ cross_path x }
{
    match x {
        b'X' | b'x' => Some(DataPath::Cross),
        _ => None,
    }
}

fn value_path(t: u8, value: u8) -> Option<DataPath>
    ensures { result ≡ value_path t value }
{
    match t {
        b'T' | b't' => {
            let side = unit_side(value)?;
            Some(DataPath::Value(side))
        }
        _ => None,
    }
}

/// The unit with this name, in either case.
#[tactic(auto, unfolding(crate::specs::OperandNames::unit_of))]
pub fn unit_of(word: &[u8]) -> Option<Unit>
    ensures { result ≡ unit_of word.now }
{
    match word {
        [b'.', kind, side] => unit_with(unit_kind(*kind), unit_side(*side), Some(DataPath::Own)),
        [b'.', kind, side, x] => unit_with(crossing_kind(*kind), unit_side(*side), cross_path(*x)),
        [b'.', kind, side, t, value] => unit_with(
            memory_kind(*kind),
            unit_side(*side),
            value_path(*t, *value),
        ),
        _ => None,
    }
}
