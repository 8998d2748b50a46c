ghost use Rattle.std.specs.Prelude.{◌≡◌, ℕ, ◌+◌, ◌^◌, ◌<◌, ◌≤◌, length, slice_index};
ghost use Rattle.c6x_spec.specs.Memory.{spliced};
ghost use Rattle.c6x_spec.specs.Numbers.{number_in};
ghost use Rattle.c6x_reloc.specs.Fields.{HoldsValue, SetsField};
ghost use Rattle.c6x_reloc.specs.Table.{row_of};

use crate::reloc_kind::RelocKind;
use crate::table::size_of;
use crate::valuing::patch;

/// Sets the kind's field at a place to `value`, and keeps every other bit of the bytes.
pub fn patch_at(bytes: &mut [u8], place: usize, kind: RelocKind, value: u32)
    requires field { 1 ≤ (row_of kind).width }
    requires inside { place + (row_of kind).size ≤ length bytes.old }
    requires fits { value < 2 ^ (row_of kind).width }
    ensures sets { SetsField bytes.old place kind value bytes.new }
    ensures holds { HoldsValue bytes.new place kind value }
{
    let size = size_of(kind) as usize;
    let number = word_from(bytes, place);
    let new = patch(number, kind, value).to_le_bytes();
    put(bytes, place, &new[..size]);
}

/// The number of the four bytes from a place on, of which those past the end count as 0.
fn word_from(bytes: &[u8], at: usize) -> u32
    requires { at ≤ length bytes.now }
    ensures value { result ≡ number_in 4 bytes.now at }
    ensures bytes { (i : ℕ) → slice_index bytes.now i < 256 }
{
    u32::from_le_bytes([
        byte(bytes, at),
        byte(bytes, at + 1),
        byte(bytes, at + 2),
        byte(bytes, at + 3),
    ])
}

/// The byte at a place, and 0 past the end.
fn byte(bytes: &[u8], at: usize) -> u8
    ensures { result ≡ slice_index bytes.now at }
{
    bytes.get(at).copied().unwrap_or(0)
}

/// Puts the new bytes in place of those from `at` on.
#[tactic(auto, unfolding(c6x_spec::specs::Memory::spliced))]
fn put(bytes: &mut [u8], at: usize, new: &[u8])
    requires { at + length new.now ≤ length bytes.old }
    ensures { bytes.new ≡ spliced bytes.old at new.now }
{
    bytes[at..at + new.len()].copy_from_slice(new);
}
