ghost use Rattle.std.specs.Prelude.{◌≡◌, ◌+◌, ◌*◌, ◌≤◌};
ghost use Rattle.c6x_reloc.specs.Table.{in_code, in_data, kind_or, no_field, row_of};

use crate::kind_row::KindRow;
use crate::origin::Origin;
use crate::reloc_error::RelocError;
use crate::reloc_kind::RelocKind;

/// Bounds that every quotient keeps: the field takes the low bits.
const ANY: (i64, i64) = (-2_147_483_648, 2_147_483_647);

/// The kind with this number (SPRAB89); `RelocError::Kind` exactly where the number has no value here.
#[tactic(auto, unfolding(crate::specs::Table::kind_or, crate::specs::Table::row_of))]
pub fn kind_of(number: u8) -> Result<RelocKind, RelocError>
    ensures { result ≡ kind_or number }
{
    Ok(match number {
        0 => RelocKind::NONE,
        1 => RelocKind::ABS32,
        2 => RelocKind::ABS16,
        3 => RelocKind::ABS8,
        4 => RelocKind::PCR_S21,
        5 => RelocKind::PCR_S12,
        7 => RelocKind::PCR_S7,
        8 => RelocKind::ABS_S16,
        9 => RelocKind::ABS_L16,
        10 => RelocKind::ABS_H16,
        11 => RelocKind::SBR_U15_B,
        12 => RelocKind::SBR_U15_H,
        13 => RelocKind::SBR_U15_W,
        14 => RelocKind::SBR_S16,
        15 => RelocKind::SBR_L16_B,
        16 => RelocKind::SBR_L16_H,
        17 => RelocKind::SBR_L16_W,
        18 => RelocKind::SBR_H16_B,
        19 => RelocKind::SBR_H16_H,
        20 => RelocKind::SBR_H16_W,
        21 => RelocKind::SBR_GOT_U15_W,
        22 => RelocKind::SBR_GOT_L16_W,
        23 => RelocKind::SBR_GOT_H16_W,
        24 => RelocKind::DSBT_INDEX,
        27 => RelocKind::JUMP_SLOT,
        253 => RelocKind::ALIGN,
        254 => RelocKind::FPHEAD,
        255 => RelocKind::NOCMP,
        _ => return Err(RelocError::Kind),
    })
}

/// The kind's number in a Rela entry's info.
#[tactic(auto, using(crate::proofs::KindNumbers::kind_back))]
pub fn number_of(kind: RelocKind) -> u8
    ensures number { result ≡ (row_of kind).number }
    ensures back { kind_or result ≡ Ok kind }
{
    row(kind).number
}

/// What the kind's value is taken from.
pub fn origin_of(kind: RelocKind) -> Origin
    ensures { result ≡ (row_of kind).origin }
{
    row(kind).origin
}

/// The lowest bit of the kind's field, 0 for a kind without a field.
pub fn lowest_bit(kind: RelocKind) -> u32
    ensures { result ≡ (row_of kind).low }
{
    row(kind).low
}

/// The width of the kind's field in bits, 0 for a kind without a field.
pub fn width(kind: RelocKind) -> u32
    ensures { result ≡ (row_of kind).width }
{
    row(kind).width
}

/// The bytes of the number in which the kind's field stands: 4, 2 or 1.
pub fn size_of(kind: RelocKind) -> u32
    ensures size { result ≡ (row_of kind).size }
    ensures few { result ≤ 4 }
    ensures within { (row_of kind).low + (row_of kind).width ≤ 8 * result }
{
    row(kind).size
}

/// Whether the kind's field stands in an instruction.
pub fn is_instruction(kind: RelocKind) -> bool
    ensures { result ≡ (row_of kind).instruction }
{
    row(kind).instruction
}

/// The kind's row.
#[tactic(auto, unfolding(crate::specs::Table::row_of))]
pub fn row(kind: RelocKind) -> KindRow
    ensures row { result ≡ row_of kind }
    ensures few { result.size ≤ 4 }
    ensures within { result.low + result.width ≤ 8 * result.size }
    ensures shifts { result.step + result.skip ≤ 31 }
{
    match kind {
        RelocKind::NONE => no_field(0),
        RelocKind::ABS32 => in_data(1, Origin::Absolute, 4, ANY),
        RelocKind::ABS16 => in_data(2, Origin::Absolute, 2, (-32_768, 65_535)),
        RelocKind::ABS8 => in_data(3, Origin::Absolute, 1, (-128, 255)),
        RelocKind::PCR_S21 => in_code(4, Origin::Packet, (2, 0), (7, 21), (-1_048_576, 1_048_575)),
        RelocKind::PCR_S12 => in_code(5, Origin::Packet, (2, 0), (16, 12), (-2_048, 2_047)),
        RelocKind::PCR_S7 => in_code(7, Origin::Packet, (2, 0), (16, 7), (-64, 63)),
        RelocKind::ABS_S16 => in_code(8, Origin::Absolute, (0, 0), (7, 16), (-32_768, 32_767)),
        RelocKind::ABS_L16 => in_code(9, Origin::Absolute, (0, 0), (7, 16), ANY),
        RelocKind::ABS_H16 => in_code(10, Origin::Absolute, (0, 16), (7, 16), ANY),
        RelocKind::SBR_U15_B => in_code(11, Origin::Table, (0, 0), (8, 15), (0, 32_767)),
        RelocKind::SBR_U15_H => in_code(12, Origin::Table, (1, 0), (8, 15), (0, 32_767)),
        RelocKind::SBR_U15_W => in_code(13, Origin::Table, (2, 0), (8, 15), (0, 32_767)),
        RelocKind::SBR_S16 => in_code(14, Origin::Table, (0, 0), (7, 16), (-32_768, 32_767)),
        RelocKind::SBR_L16_B => in_code(15, Origin::Table, (0, 0), (7, 16), ANY),
        RelocKind::SBR_L16_H => in_code(16, Origin::Table, (1, 0), (7, 16), ANY),
        RelocKind::SBR_L16_W => in_code(17, Origin::Table, (2, 0), (7, 16), ANY),
        RelocKind::SBR_H16_B => in_code(18, Origin::Table, (0, 16), (7, 16), ANY),
        RelocKind::SBR_H16_H => in_code(19, Origin::Table, (1, 16), (7, 16), ANY),
        RelocKind::SBR_H16_W => in_code(20, Origin::Table, (2, 16), (7, 16), ANY),
        RelocKind::SBR_GOT_U15_W => in_code(21, Origin::Got, (2, 0), (8, 15), (0, 32_767)),
        RelocKind::SBR_GOT_L16_W => in_code(22, Origin::Got, (2, 0), (7, 16), ANY),
        RelocKind::SBR_GOT_H16_W => in_code(23, Origin::Got, (2, 16), (7, 16), ANY),
        RelocKind::DSBT_INDEX => in_code(24, Origin::Index, (0, 0), (8, 15), (0, 32_767)),
        RelocKind::JUMP_SLOT => in_data(27, Origin::Slot, 4, ANY),
        RelocKind::ALIGN => no_field(253),
        RelocKind::FPHEAD => no_field(254),
        RelocKind::NOCMP => no_field(255),
    }
}

/// The row of a kind without a field.
fn no_field(number: u8) -> KindRow
    ensures { result ≡ no_field number }
{
    KindRow {
        number,
        origin: Origin::Nothing,
        step: 0,
        skip: 0,
        low: 0,
        width: 0,
        size: 4,
        instruction: false,
        least: ANY.0,
        most: ANY.1,
    }
}

/// The row of a field that is a number of data, of so many bytes.
fn in_data(number: u8, origin: Origin, size: u32, bounds: (i64, i64)) -> KindRow
    requires { size ≤ 4 }
    ensures { result ≡ in_data number origin size bounds }
{
    KindRow {
        number,
        origin,
        step: 0,
        skip: 0,
        low: 0,
        width: 8 * size,
        size,
        instruction: false,
        least: bounds.0,
        most: bounds.1,
    }
}

/// The row of a field of an instruction's word, from the divisor's power and the low bits left out, the
/// field's lowest bit and width, and the bounds.
fn in_code(
    number: u8,
    origin: Origin,
    shifts: (u32, u32),
    field: (u32, u32),
    bounds: (i64, i64),
) -> KindRow
    ensures { result ≡ in_code number origin shifts.0 shifts.1 field.0 field.1 bounds }
{
    KindRow {
        number,
        origin,
        step: shifts.0,
        skip: shifts.1,
        low: field.0,
        width: field.1,
        size: 4,
        instruction: true,
        least: bounds.0,
        most: bounds.1,
    }
}
