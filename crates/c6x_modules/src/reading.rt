ghost use Rattle.std.specs.Prelude.{◌≡◌, ◌≤◌, IfOk, false, length};
ghost use Rattle.c6x_base.specs.declared.limits.TheConstants.{MOST_SEGMENTS as most};
ghost use Rattle.c6x_module.specs.Valid.{IsValid};
ghost use Rattle.c6x_module.specs.Modules.{module_in};
ghost use Rattle.c6x_module.specs.Refusals.{Answers};

use crate::ranges::take_ranges;
use crate::survey::read_survey;
use c6x_base::Name;
use c6x_elf::File;
use c6x_module::{Module, ModuleError};
use std::alloc::Global;

/// The module that a file's program headers and dynamic tags give, or the first broken rule of L1 to L11. The file is
/// taken over: the segments' bytes are not copied.
pub fn read_module(alloc: Global, name: Name, file: File) -> Result<Module, ModuleError>
    requires { length file.segments ≤ most }
    ensures read { Answers (λ image. image) result (module_in false name file) }
    ensures valid { IfOk result (λ image. IsValid image) }
    ensures named { IfOk result (λ image. image.name ≡ name) }
{
    let survey = read_survey(alloc, false, &name, &file)?;
    let kind = file.kind;
    let entry = file.entry;
    let (text, memory) = take_ranges(file.segments.into_vec());
    Ok(Module {
        name,
        kind,
        entry,
        text,
        memory,
        symbols: survey.symbols,
        fields: survey.fields,
        needed: survey.needed,
        index: survey.index,
        slots: survey.slots,
        table: survey.table,
    })
}
