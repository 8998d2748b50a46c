ghost use Rattle.std.specs.Prelude.{◌≡◌, ◌+◌, ◌++◌, OnOk, vec_len};
ghost use Rattle.c6x_elf_headers.specs.HeadRows.{file_row, FileFits, size_of, section_words, segment_words};
ghost use Rattle.c6x_elf_headers.specs.Rows.{AreWords, word_row};

use crate::abi::{ELFCLASS32, ELFDATA2LSB, ELFDATA2MSB, EM_TI_C6000, EV_CURRENT};
use crate::file_head::FileHead;
use crate::number_row::{put_halves, put_words};
use crate::section_head::SectionHead;
use crate::segment_head::SegmentHead;
use std::alloc::AllocError;

/// Puts a file header.
#[tactic(auto, unfolding(crate::specs::HeadRows::file_row), using(crate::proofs::HeadRows::file_row_put))]
pub fn put_file_head(out: &mut Vec<u8>, big: bool, head: &FileHead) -> Result<(), AllocError>
    ensures row { OnOk result (out.new.items ≡ out.old.items ++ file_row big head.now) }
    ensures end { OnOk result (vec_len out.new ≡ vec_len out.old + 52) }
    ensures fit { OnOk result (FileFits head.now) }
{
    let encoding = if big { ELFDATA2MSB } else { ELFDATA2LSB };
    out.extend_from_slice(&[
        0x7F,
        b'E',
        b'L',
        b'F',
        ELFCLASS32,
        encoding,
        EV_CURRENT as u8,
        0,
        0,
        0,
        0,
        0,
        0,
        0,
        0,
        0,
    ])?;
    put_halves(out, big, &[head.kind, EM_TI_C6000])?;
    put_words(
        out,
        big,
        &[
            EV_CURRENT,
            head.entry,
            head.segments_at,
            head.sections_at,
            head.flags,
        ],
    )?;
    let segment_size = size_of(head.segment_count, 32);
    let section_size = size_of(head.section_count, 40);
    put_halves(
        out,
        big,
        &[
            52,
            segment_size,
            head.segment_count,
            section_size,
            head.section_count,
            head.names,
        ],
    )
}

/// The size of headers, and 0 where there are none.
fn size_of(count: u16, size: u16) -> u16
    ensures { result ≡ size_of count size }
{
    if count == 0 { 0 } else { size }
}

/// Puts a program header.
pub fn put_segment_head(out: &mut Vec<u8>, big: bool, head: &SegmentHead) -> Result<(), AllocError>
    ensures row { OnOk result (out.new.items ≡ out.old.items ++ word_row big (segment_words head.now)) }
    ensures end { OnOk result (vec_len out.new ≡ vec_len out.old + 32) }
    ensures fit { OnOk result (AreWords (segment_words head.now)) }
{
    let words = [
        head.kind,
        head.offset,
        head.vaddr,
        head.vaddr,
        head.filesz,
        head.memsz,
        head.flags,
        head.align,
    ];
    put_words(out, big, &words)
}

/// Puts a section header.
pub fn put_section_head(out: &mut Vec<u8>, big: bool, head: &SectionHead) -> Result<(), AllocError>
    ensures row { OnOk result (out.new.items ≡ out.old.items ++ word_row big (section_words head.now)) }
    ensures end { OnOk result (vec_len out.new ≡ vec_len out.old + 40) }
    ensures fit { OnOk result (AreWords (section_words head.now)) }
{
    let words = [
        head.name,
        head.kind,
        head.flags,
        head.addr,
        head.offset,
        head.size,
        head.link,
        head.info,
        head.align,
        head.entsize,
    ];
    put_words(out, big, &words)
}
