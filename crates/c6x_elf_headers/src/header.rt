ghost use Rattle.std.specs.Prelude.{◌≡◌, ◌+◌, ◌≤◌, false, length, IsTrue, IfOk, OnOk};
ghost use Rattle.c6x_spec.specs.Numbers.{half_at};
ghost use Rattle.c6x_elf_headers.specs.Header.{HeadKeeps, counts_refusal, header_refusal, ident_refusal, is_file_type, is_magic, is_none_or_below, is_none_or_sized, numbers_refusal, sizes_refusal};
ghost use Rattle.c6x_elf_headers.specs.Heads.{file_head, is_big};
ghost use Rattle.c6x_elf_headers.specs.Rules.{Passes};

use crate::abi::{
    ELFCLASS32, ELFDATA2LSB, ELFDATA2MSB, EM_TI_C6000, ET_DYN, ET_EXEC, ET_REL, EV_CURRENT,
};
use crate::checks::{check, need};
use crate::elf_error::ElfError;
use crate::elf_rule::ElfRule;
use crate::file_head::FileHead;
use crate::number::{read_half, read_word};
use c6x_base::limits::{MOST_FILE_BYTES, MOST_SECTIONS, MOST_SEGMENTS};

/// The file header, or the first broken rule of the length and the header.
#[tactic(auto, unfolding(crate::specs::Header::header_refusal))]
pub fn read_header(bytes: &[u8]) -> Result<FileHead, ElfError>
    ensures passes { Passes result (header_refusal bytes.now) }
    ensures value { IfOk result (λ head. head ≡ file_head (is_big bytes.now) bytes.now) }
    ensures keeps { IfOk result HeadKeeps }
    ensures little { OnOk result (is_big bytes.now ≡ false) }
    ensures few { OnOk result (length bytes.now ≤ MOST_FILE_BYTES) }
    ensures within { OnOk result (52 ≤ length bytes.now) }
{
    check_ident(bytes)?;
    let big = is_big(bytes);
    check_numbers(big, bytes)?;
    check_counts(big, bytes)?;
    check_sizes(big, bytes)?;
    Ok(head_in(big, bytes))
}

/// Whether the file's numbers are big-endian.
#[tactic(auto, unfolding(crate::specs::Heads::is_big))]
pub fn is_big(bytes: &[u8]) -> bool
    requires { 6 ≤ length bytes.now }
    ensures { result ≡ is_big bytes.now }
{
    bytes[5] == ELFDATA2MSB
}

/// The length and the identification.
#[tactic(auto, unfolding(crate::specs::Header::ident_refusal, crate::specs::Heads::is_big))]
fn check_ident(bytes: &[u8]) -> Result<(), ElfError>
    ensures passes { Passes result (ident_refusal bytes.now) }
    ensures little { OnOk result (is_big bytes.now ≡ false) }
    ensures within { OnOk result (16 ≤ length bytes.now) }
    ensures few { OnOk result (length bytes.now ≤ MOST_FILE_BYTES) }
{
    check(bytes.len() <= MOST_FILE_BYTES as usize, ElfRule::Large, 0)?;
    need(bytes, 0, 4)?;
    check(is_magic(bytes), ElfRule::Magic, 0)?;
    need(bytes, 4, 1)?;
    check(bytes[4] == ELFCLASS32, ElfRule::Class, 4)?;
    need(bytes, 5, 1)?;
    check(bytes[5] == ELFDATA2LSB, ElfRule::Data, 5)?;
    need(bytes, 6, 1)?;
    check(bytes[6] == EV_CURRENT as u8, ElfRule::Version, 6)?;
    need(bytes, 7, 9)
}

/// The type, the machine, the version and four words.
#[tactic(auto, unfolding(crate::specs::Header::numbers_refusal))]
fn check_numbers(big: bool, bytes: &[u8]) -> Result<(), ElfError>
    ensures passes { Passes result (numbers_refusal big bytes.now) }
    ensures kind { OnOk result (IsTrue (is_file_type (half_at big bytes.now 16))) }
    ensures within { OnOk result (40 ≤ length bytes.now) }
{
    need(bytes, 16, 2)?;
    check(
        is_file_type(read_half(big, bytes, 16)),
        ElfRule::FileType,
        16,
    )?;
    need(bytes, 18, 2)?;
    check(
        read_half(big, bytes, 18) == EM_TI_C6000,
        ElfRule::Machine,
        18,
    )?;
    need(bytes, 20, 4)?;
    check(
        read_word(big, bytes, 20) == EV_CURRENT,
        ElfRule::Version,
        20,
    )?;
    need(bytes, 24, 4)?;
    need(bytes, 28, 4)?;
    need(bytes, 32, 4)?;
    need(bytes, 36, 4)
}

/// The sizes and counts of headers, and the section of the names.
#[tactic(auto, unfolding(crate::specs::Header::counts_refusal))]
fn check_counts(big: bool, bytes: &[u8]) -> Result<(), ElfError>
    ensures passes { Passes result (counts_refusal big bytes.now) }
    ensures segments { OnOk result (half_at big bytes.now 44 ≤ MOST_SEGMENTS) }
    ensures sections { OnOk result (half_at big bytes.now 48 ≤ MOST_SECTIONS) }
    ensures names { OnOk result (IsTrue (is_none_or_below (half_at big bytes.now 50) (half_at big bytes.now 48))) }
    ensures within { OnOk result (52 ≤ length bytes.now) }
{
    need(bytes, 40, 2)?;
    need(bytes, 42, 2)?;
    need(bytes, 44, 2)?;
    let segments = read_half(big, bytes, 44);
    check(segments <= MOST_SEGMENTS, ElfRule::Large, 44)?;
    need(bytes, 46, 2)?;
    need(bytes, 48, 2)?;
    let sections = read_half(big, bytes, 48);
    check(sections <= MOST_SECTIONS, ElfRule::Large, 48)?;
    need(bytes, 50, 2)?;
    check(
        is_none_or_below(read_half(big, bytes, 50), sections),
        ElfRule::Index,
        50,
    )
}

/// The sizes of program and section headers.
#[tactic(auto, unfolding(crate::specs::Header::sizes_refusal))]
fn check_sizes(big: bool, bytes: &[u8]) -> Result<(), ElfError>
    requires { 52 ≤ length bytes.now }
    ensures { Passes result (sizes_refusal big bytes.now) }
{
    let segments = read_half(big, bytes, 44);
    check(
        is_none_or_sized(segments, read_half(big, bytes, 42), 32),
        ElfRule::EntrySize,
        42,
    )?;
    let sections = read_half(big, bytes, 48);
    check(
        is_none_or_sized(sections, read_half(big, bytes, 46), 40),
        ElfRule::EntrySize,
        46,
    )
}

/// The fields of the file header.
#[tactic(auto, unfolding(crate::specs::Heads::file_head))]
fn head_in(big: bool, bytes: &[u8]) -> FileHead
    requires within { 52 ≤ length bytes.now }
    requires kind { IsTrue (is_file_type (half_at big bytes.now 16)) }
    requires segments { half_at big bytes.now 44 ≤ MOST_SEGMENTS }
    requires sections { half_at big bytes.now 48 ≤ MOST_SECTIONS }
    requires names { IsTrue (is_none_or_below (half_at big bytes.now 50) (half_at big bytes.now 48)) }
    ensures value { result ≡ file_head big bytes.now }
    ensures keeps { HeadKeeps result }
{
    FileHead {
        kind: read_half(big, bytes, 16),
        entry: read_word(big, bytes, 24),
        segments_at: read_word(big, bytes, 28),
        sections_at: read_word(big, bytes, 32),
        flags: read_word(big, bytes, 36),
        segment_count: read_half(big, bytes, 44),
        section_count: read_half(big, bytes, 48),
        names: read_half(big, bytes, 50),
    }
}

/// Whether the file begins as an ELF file.
#[tactic(auto, unfolding(crate::specs::Header::is_magic))]
fn is_magic(bytes: &[u8]) -> bool
    requires { 4 ≤ length bytes.now }
    ensures { result ≡ is_magic bytes.now }
{
    bytes[0] == 0x7F && bytes[1] == b'E' && bytes[2] == b'L' && bytes[3] == b'F'
}

/// Whether the type is that of a relocatable file, an executable or a shared object.
#[tactic(auto, unfolding(crate::specs::Header::is_file_type))]
fn is_file_type(kind: u16) -> bool
    ensures { result ≡ is_file_type kind }
{
    kind == ET_REL || kind == ET_EXEC || kind == ET_DYN
}

/// Whether a number is 0 or names one of `count` things.
#[tactic(auto, unfolding(crate::specs::Header::is_none_or_below))]
fn is_none_or_below(number: u16, count: u16) -> bool
    ensures { result ≡ is_none_or_below number count }
{
    number == 0 || number < count
}

/// Whether there are none of these, or their size is as it must be.
#[tactic(auto, unfolding(crate::specs::Header::is_none_or_sized))]
fn is_none_or_sized(count: u16, size: u16, wanted: u16) -> bool
    ensures { result ≡ is_none_or_sized count size wanted }
{
    count == 0 || size == wanted
}
