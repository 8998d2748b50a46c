ghost use Rattle.std.specs.Prelude.{◌≡◌, ◌*◌, ◌≤◌, ◌++◌, IfOk, IsOk, OnOk, length};
ghost use Rattle.c6x_base.specs.declared.limits.TheConstants.{MOST_SEGMENTS as most};
ghost use Rattle.c6x_elf.specs.Abi.{DT_DSBT_BASE as base_tag, DT_DSBT_SIZE as size_tag};
ghost use Rattle.c6x_module.specs.Valid.{IsInside};
ghost use Rattle.c6x_module.specs.Entries.{tag_or as value_at};
ghost use Rattle.c6x_module.specs.Fields.{fields_of};
ghost use Rattle.c6x_module.specs.Modules.{module_in, ranges_then, relocs_refusal};
ghost use Rattle.c6x_module.specs.Ranges.{ranges_in};
ghost use Rattle.c6x_module.specs.Refusals.{Answers, Passes};
ghost use Rattle.c6x_modules.specs.Surveyed.{module_from, Surveys};

use crate::checks::check_tables;
use crate::copies::{copy_needed, copy_symbols};
use crate::table_reading::read_tables;
use c6x_base::{Name, Row};
use c6x_elf::abi::{DT_DSBT_BASE, DT_DSBT_INDEX, DT_DSBT_SIZE};
use c6x_elf::{Dyn, File, Rela, Segment};
use c6x_module::{
    DynSymbol, Field, ModuleError, check_dsbt, check_entry, check_fields, check_kinds, check_shape,
    find_entries, find_ranges, make_fields, tag_or,
};
use std::alloc::{AllocError, Global};

/// All of a module but its name and its segments.
#[derive(Debug, Drop)]
pub struct Survey {
    pub symbols: Row<DynSymbol>,
    pub fields: Row<Field>,
    pub needed: Row<Name>,
    pub index: u32,
    pub slots: u32,
    pub table: u32,
}

/// Reads all of a file's module but the segments, or tells the first broken rule.
#[tactic(auto, unfolding(c6x_module::specs::Modules::module_in))]
pub fn read_survey(
    alloc: Global,
    big: bool,
    name: &Name,
    file: &File,
) -> Result<Survey, ModuleError>
    requires { length file.now.segments ≤ most }
    ensures read { Surveys name.now file.now result (module_in big name.now file.now) }
    ensures ranges { OnOk result (IsOk (ranges_in file.now.segments)) }
{
    let entries = find_entries(alloc, big, file.segments.as_slice())?;
    check_dsbt(&entries)?;
    let (text, range) = find_ranges(file.segments.as_slice())?;
    survey_ranges(alloc, big, name, file, text, range, &entries)
}

/// The same behind the text, the data range and the dynamic entries.
#[tactic(auto, unfolding(c6x_module::specs::Modules::ranges_then, c6x_module::specs::Modules::tables_then, c6x_module::specs::Modules::module_of))]
fn survey_ranges(
    alloc: Global,
    big: bool,
    name: &Name,
    file: &File,
    text: &Segment,
    range: &Segment,
    entries: &[Dyn],
) -> Result<Survey, ModuleError>
    ensures { Answers (λ s. module_from s name.now file.now (text.now, range.now)) result (ranges_then big name.now file.now (text.now, range.now) entries.now) }
{
    check_shape(text, range, entries)?;
    let (rows, strings) = read_tables(alloc, big, text, range, entries)?;
    check_tables(entries, &rows, strings)?;
    let relas = join(rows.relas, &rows.jumps)?;
    let fields = read_fields(alloc, file, text, range, entries, &relas)?;
    let symbols = copy_symbols(alloc, strings, &rows.symbols)?;
    let needed = copy_needed(alloc, strings, entries)?;
    Ok(Survey {
        symbols,
        fields: Row::of(fields),
        needed,
        index: tag_or(entries, DT_DSBT_INDEX, 0),
        slots: tag_or(entries, DT_DSBT_SIZE, 0),
        table: tag_or(entries, DT_DSBT_BASE, 0),
    })
}

/// All entries of relocation, those of JMPREL behind those of RELA.
fn join(mut relas: Vec<Rela>, jumps: &[Rela]) -> Result<Vec<Rela>, AllocError>
    ensures { IfOk result (λ all. all.items ≡ relas.items ++ jumps.now) }
{
    relas.extend_from_slice(jumps)?;
    Ok(relas)
}

/// The fields of the entries of relocation, which keep the rules on fields; and the entry does.
#[tactic(auto, unfolding(c6x_module::specs::Modules::relocs_refusal))]
fn read_fields(
    alloc: Global,
    file: &File,
    text: &Segment,
    range: &Segment,
    entries: &[Dyn],
    relas: &[Rela],
) -> Result<Vec<Field>, ModuleError>
    requires { IsInside range.now (value_at 0 base_tag entries.now) (4 * value_at 0 size_tag entries.now) }
    ensures passes { Passes result (relocs_refusal file.now (text.now, range.now) entries.now relas.now) }
    ensures value { IfOk result (λ fields. fields.items ≡ fields_of relas.now) }
{
    check_kinds(relas)?;
    let fields = make_fields(alloc, relas)?;
    let table = tag_or(entries, DT_DSBT_BASE, 0);
    let slots = tag_or(entries, DT_DSBT_SIZE, 0);
    check_fields(alloc, range, table, slots, &fields)?;
    check_entry(text, tag_or(entries, DT_DSBT_INDEX, 0), file.entry)?;
    Ok(fields)
}
