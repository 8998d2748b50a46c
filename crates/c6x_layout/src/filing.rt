ghost use Rattle.std.specs.Prelude.{◌≡◌, ◌+◌, ◌≤◌, ◌++◌, ◌∷◌, [], false, List, IfOk, OnOk, length, vec_len, if◌then◌else◌};
ghost use Rattle.c6x_elf.specs.Abi.{ET_DYN, ET_EXEC, PF_R, PF_X, PT_DYNAMIC, PT_LOAD};
ghost use Rattle.c6x_elf.specs.Form.{IsTidy};
ghost use Rattle.c6x_elf.specs.Laid.{Part, laid};
ghost use Rattle.c6x_layout.specs.File.{dynamic_bytes, linked_file, text_bytes};
ghost use Rattle.c6x_layout.specs.FilePlaces.{AreInOrder, dynamic_at, places_of};
ghost use Rattle.c6x_layout.specs.FileSizes.{AreFew, AreSized};
ghost use Rattle.c6x_layout.specs.Tables.{counts_of, strings_of};
ghost use Rattle.c6x_layout.specs.Text.{AreTables, HaveRoom, parts_at};
ghost use Rattle.c6x_layout.specs.declared.file_limits.TheConstants.{MOST_SEGMENT_BYTES, TEXT_START};

use crate::counts::Counts;
use crate::entries::{address, put_other_entries, rela_bytes};
use crate::file_limits::TEXT_START;
use crate::hashing::hash_bytes;
use crate::laid_text::LaidText;
use crate::naming_parts::name_tables;
use crate::parts::Parts;
use crate::places::{Places, places_of};
use crate::tables::Tables;
use c6x_base::{Bytes, Row};
use c6x_elf::abi::{ET_DYN, ET_EXEC, PF_R, PF_W, PF_X, PT_DYNAMIC, PT_LOAD};
use c6x_elf::{File, Segment, put_part};
use std::alloc::{AllocError, Global};

/// How much the text of a module holds, whose strings have so many bytes.
#[tactic(auto, unfolding(crate::specs::Tables::counts_of), using(crate::proofs::NameEnds::named_count))]
fn counts_of(parts: &Parts, strings: usize) -> Counts
    requires { strings ≡ length (strings_of parts.now) }
    ensures { result ≡ counts_of parts.now }
{
    let soname = if parts.soname.is_some() { 1 } else { 0 };
    Counts {
        code: parts.code.as_bytes().len() as u64,
        symbols: parts.shared.as_slice().len() as u64 + 3,
        strings: strings as u64,
        relas: parts.relas.as_slice().len() as u64,
        jumps: parts.jumps.as_slice().len() as u64,
        named: soname + parts.needed.as_slice().len() as u64,
    }
}

/// How much the text of a module holds, and where its tables stand.
#[tactic(auto, unfolding(crate::specs::FilePlaces::places_of), using(crate::proofs::Fitting::sized_counts))]
fn places_in(parts: &Parts, strings: usize) -> (Counts, Places)
    requires sized { AreSized parts.now }
    requires strings { strings ≡ length (strings_of parts.now) }
    ensures counts { result.0 ≡ counts_of parts.now }
    ensures few { AreFew result.0 }
    ensures places { result.1 ≡ places_of result.0 }
    ensures order { AreInOrder result.1 }
    ensures small { result.1.end ≤ MOST_SEGMENT_BYTES }
{
    let counts = counts_of(parts, strings);
    let places = places_of(&counts);
    (counts, places)
}

/// The tables of a module, and where they stand.
#[tactic(auto, using(crate::proofs::Fitting::strings_few, crate::proofs::Fitting::shared_few, crate::proofs::Fitting::dynamic_is))]
fn tables_of(alloc: Global, parts: &Parts) -> Result<(Tables, Places), AllocError>
    requires { AreSized parts.now }
    ensures tables { IfOk result (λ made. AreTables parts.now made.0) }
    ensures places { IfOk result (λ made. made.1 ≡ places_of (counts_of parts.now)) }
{
    let names = name_tables(alloc, parts)?;
    let (counts, places) = places_in(parts, names.strings.as_bytes().len());
    let mut dynamic = names.entries;
    put_other_entries(&mut dynamic, parts, &counts, &places)?;
    let tables = Tables {
        hash: Bytes::of(hash_bytes(alloc, parts.shared.as_slice())?),
        symbols: Bytes::of(names.symbols),
        strings: names.strings,
        relas: Bytes::of(rela_bytes(alloc, parts.relas.as_slice())?),
        jumps: Bytes::of(rela_bytes(alloc, parts.jumps.as_slice())?),
        dynamic: Bytes::of(dynamic),
    };
    Ok((tables, places))
}

/// Puts zeros up to a place, and then the bytes.
fn put_table(out: &mut Vec<u8>, place: u64, bytes: &Bytes) -> Result<(), AllocError>
    requires { vec_len out.old ≤ place }
    ensures laid { OnOk result ((rest : List Part) → out.new.items ++ laid (vec_len out.new) rest ≡ out.old.items ++ laid (vec_len out.old) (record { at = place; bytes = bytes.now } ∷ rest)) }
    ensures end { OnOk result (vec_len out.new ≡ place + length bytes.now) }
{
    put_part(out, place as usize, bytes.as_bytes())
}

/// The parts of a text, each in its place, with zeros in the gaps.
#[tactic(auto, unfolding(crate::specs::Text::parts_at))]
fn lay_text(
    alloc: Global,
    code: &Bytes,
    tables: &Tables,
    places: &Places,
) -> Result<Vec<u8>, AllocError>
    requires { HaveRoom code.now tables.now places.now }
    ensures { IfOk result (λ text. text.items ≡ laid 0 (parts_at code.now tables.now places.now)) }
{
    let mut text = Vec::new(alloc);
    put_table(&mut text, 0, code)?;
    put_table(&mut text, places.hash, &tables.hash)?;
    put_table(&mut text, places.symbols, &tables.symbols)?;
    put_table(&mut text, places.strings, &tables.strings)?;
    put_table(&mut text, places.relas, &tables.relas)?;
    put_table(&mut text, places.jumps, &tables.jumps)?;
    put_table(&mut text, places.dynamic, &tables.dynamic)?;
    Ok(text)
}

/// The text of a module, and its dynamic entries.
#[tactic(auto, unfolding(crate::specs::FilePlaces::places_of), using(crate::proofs::Fitting::text_is, crate::proofs::Tidy::place_few))]
fn text_of(alloc: Global, parts: &Parts) -> Result<LaidText, AllocError>
    requires { AreSized parts.now }
    ensures bytes { IfOk result (λ text. text.bytes ≡ text_bytes parts.now) }
    ensures dynamic { IfOk result (λ text. text.dynamic ≡ dynamic_bytes parts.now) }
    ensures place { IfOk result (λ text. text.dynamic_at ≡ TEXT_START + dynamic_at (counts_of parts.now)) }
{
    let (tables, places) = tables_of(alloc, parts)?;
    let text = lay_text(alloc, &parts.code, &tables, &places)?;
    Ok(LaidText {
        bytes: Bytes::of(text),
        dynamic: tables.dynamic,
        dynamic_at: address(places.dynamic),
    })
}

/// The segment of the text.
fn text_segment(align: u32, bytes: Bytes) -> Segment
    requires { length bytes ≤ MOST_SEGMENT_BYTES }
    ensures { result ≡ record { kind = PT_LOAD; vaddr = TEXT_START; memsz = length bytes; flags = PF_R + PF_X; align = align; bytes = bytes } }
{
    Segment {
        kind: PT_LOAD,
        vaddr: TEXT_START,
        memsz: bytes.as_bytes().len() as u32,
        flags: PF_R + PF_X,
        align,
        bytes,
    }
}

/// The segment of the dynamic entries, which lie in the text.
fn dynamic_segment(vaddr: u32, bytes: Bytes) -> Segment
    requires { length bytes ≤ MOST_SEGMENT_BYTES }
    ensures { result ≡ record { kind = PT_DYNAMIC; vaddr = vaddr; memsz = length bytes; flags = PF_R; align = 4; bytes = bytes } }
{
    Segment {
        kind: PT_DYNAMIC,
        vaddr,
        memsz: bytes.as_bytes().len() as u32,
        flags: PF_R,
        align: 4,
        bytes,
    }
}

/// A row of three segments.
fn three(
    alloc: Global,
    first: Segment,
    second: Segment,
    third: Segment,
) -> Result<Row<Segment>, AllocError>
    ensures { IfOk result (λ row. row ≡ first ∷ second ∷ third ∷ []) }
{
    let mut row = Row::new(alloc);
    row.push(first)?;
    row.push(second)?;
    row.push(third)?;
    Ok(row)
}

/// The file type of a module.
fn file_type(library: bool) -> u16
    ensures { result ≡ (if library then ET_DYN else ET_EXEC) }
{
    if library { ET_DYN } else { ET_EXEC }
}

/// The file of a module, which is tidy.
#[tactic(auto, unfolding(crate::specs::File::linked_file), using(crate::proofs::Tidy::text_short, crate::proofs::Tidy::dynamic_short, crate::proofs::Tidy::tidy))]
pub fn linked_file(alloc: Global, parts: Parts) -> Result<File, AllocError>
    requires { AreSized parts }
    ensures value { IfOk result (λ file. file ≡ linked_file parts) }
    ensures tidy { IfOk result (IsTidy false) }
{
    let text = text_of(alloc, &parts)?;
    let first = text_segment(parts.align, text.bytes);
    let second = Segment {
        kind: PT_LOAD,
        vaddr: parts.table,
        memsz: parts.memory,
        flags: PF_R + PF_W,
        align: parts.data_align,
        bytes: parts.content,
    };
    let third = dynamic_segment(text.dynamic_at, text.dynamic);
    Ok(File {
        kind: file_type(parts.library),
        entry: parts.entry,
        flags: 0,
        names: 0,
        segments: three(alloc, first, second, third)?,
        sections: Row::new(alloc),
    })
}
