ghost use Rattle.std.specs.Prelude.{◌≡◌, ◌^◌, ◌<◌, IfOk, IfSome, length};
ghost use Rattle.std.specs.Option.{option_copied};
ghost use Rattle.c6x_module.specs.Refusals.{Answers};
ghost use Rattle.c6x_module.specs.Tables.{bytes_at, bytes_in, count_in, placed_in, slice_in};

use c6x_elf::abi::DT_HASH;
use c6x_elf::{Dyn, Segment};
use c6x_elf_headers::read_word;
use c6x_module::{ModuleError, ModuleRule, tag_value};

/// The file bytes at an address, where they lie wholly in those of the segment.
#[tactic(auto, unfolding(c6x_module::specs::Tables::slice_in))]
fn slice_in(segment: &Segment, at: u32, count: u64) -> Option<&[u8]>
    requires { count < 2 ^ 62 }
    ensures value { option_copied result ≡ slice_in segment.now at count }
    ensures size { IfSome result (λ bytes. length bytes.now ≡ count) }
{
    let held = segment.bytes.as_bytes();
    let end = u64::from(segment.vaddr) + held.len() as u64;
    if at < segment.vaddr || end < u64::from(at) + count {
        return None;
    }
    let rest = &held[(at - segment.vaddr) as usize..];
    Some(&rest[..count as usize])
}

/// The same in one of the two segments; no bytes are anywhere.
#[tactic(auto, unfolding(c6x_module::specs::Tables::bytes_at))]
fn bytes_at<'a>(text: &'a Segment, range: &'a Segment, at: u32, count: u64) -> Option<&'a [u8]>
    requires { count < 2 ^ 62 }
    ensures value { option_copied result ≡ bytes_at text.now range.now at count }
    ensures size { IfSome result (λ bytes. length bytes.now ≡ count) }
{
    if count == 0 {
        return Some(&[]);
    }
    match slice_in(text, at, count) {
        Some(bytes) => Some(bytes),
        None => slice_in(range, at, count),
    }
}

/// The bytes of the table that a tag names, or L11 with the tag.
#[tactic(auto, unfolding(c6x_module::specs::Tables::bytes_in))]
pub fn need_bytes<'a>(
    text: &'a Segment,
    range: &'a Segment,
    tag: u32,
    at: u32,
    count: u64,
) -> Result<&'a [u8], ModuleError>
    requires { count < 2 ^ 62 }
    ensures value { Answers (λ bytes. bytes.now) result (bytes_in text.now range.now tag at count) }
    ensures size { IfOk result (λ bytes. length bytes.now ≡ count) }
{
    match bytes_at(text, range, at, count) {
        Some(bytes) => Ok(bytes),
        None => Err(ModuleError::Rule {
            rule: ModuleRule::DynamicOutside,
            number: tag,
        }),
    }
}

/// The number of symbols that the hash table says, where that table is wholly there.
#[tactic(auto, unfolding(c6x_module::specs::Tables::count_in))]
pub fn count_symbols(
    big: bool,
    text: &Segment,
    range: &Segment,
    hash: u32,
) -> Result<u32, ModuleError>
    ensures { Answers (λ count. count) result (count_in big text.now range.now hash) }
{
    let head = need_bytes(text, range, DT_HASH, hash, 8)?;
    let buckets = read_word(big, head, 0);
    let count = read_word(big, head, 4);
    let size = 4 * (2 + u64::from(buckets) + u64::from(count));
    need_bytes(text, range, DT_HASH, hash, size)?;
    Ok(count)
}

/// A table of relocation entries, by its address and its bytes, where its tag and that of its size are there.
#[tactic(auto, unfolding(c6x_module::specs::Tables::placed_in, c6x_module::specs::Tables::bytes_in))]
pub fn find_table<'a>(
    text: &'a Segment,
    range: &'a Segment,
    entries: &[Dyn],
    tag: u32,
    size_tag: u32,
) -> Result<(u32, &'a [u8]), ModuleError>
    ensures value { Answers (λ table. (table.0, table.1.now)) result (placed_in text.now range.now entries.now tag size_tag) }
    ensures size { IfOk result (λ table. length table.1.now < 2 ^ 32) }
{
    let Some(at) = tag_value(entries, tag) else {
        return Ok((0, &[]));
    };
    let Some(size) = tag_value(entries, size_tag) else {
        return Ok((0, &[]));
    };
    let bytes = need_bytes(text, range, tag, at, u64::from(size))?;
    Ok((at, bytes))
}
