ghost use Rattle.c6x_module.specs.Refusals.{Answers};
ghost use Rattle.c6x_module.specs.Tables.{addresses_in, tag_in};

use crate::entries::tag_value;
use crate::module_error::ModuleError;
use crate::module_rule::ModuleRule;
use c6x_elf::Dyn;
use c6x_elf::abi::{DT_HASH, DT_STRSZ, DT_STRTAB, DT_SYMTAB};

/// Where the tables stand that a module has to have.
#[derive(Clone, Copy, Debug)]
pub struct Addresses {
    /// HASH: the hash table of the symbols' names.
    pub hash: u32,
    /// STRTAB: the strings.
    pub strings: u32,
    /// SYMTAB: the symbols.
    pub symbols: u32,
    /// STRSZ: how many bytes the strings have.
    pub size: u32,
}

/// Where the tables stand. L11 comes exactly where one of their tags is missing, with the lowest of these.
#[tactic(auto, unfolding(crate::specs::Tables::addresses_in))]
pub fn find_addresses(entries: &[Dyn]) -> Result<Addresses, ModuleError>
    ensures { Answers (λ at. at) result (addresses_in entries.now) }
{
    let hash = find_tag(entries, DT_HASH)?;
    let strings = find_tag(entries, DT_STRTAB)?;
    let symbols = find_tag(entries, DT_SYMTAB)?;
    let size = find_tag(entries, DT_STRSZ)?;
    Ok(Addresses {
        hash,
        strings,
        symbols,
        size,
    })
}

/// The value of a tag that has to be there.
fn find_tag(entries: &[Dyn], tag: u32) -> Result<u32, ModuleError>
    ensures { Answers (λ value. value) result (tag_in tag entries.now) }
{
    match tag_value(entries, tag) {
        Some(value) => Ok(value),
        None => Err(ModuleError::Rule {
            rule: ModuleRule::DynamicOutside,
            number: tag,
        }),
    }
}
