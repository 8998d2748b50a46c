ghost use Rattle.std.specs.Prelude.{◌≡◌, ℕ, ◌<◌, All, Bool, List, Some, length, slice_index_or};
ghost use Rattle.c6x_elf_headers.specs.Entries.{dynamic_entries, rela_entries, symbol_entries};
ghost use Rattle.c6x_elf_headers.specs.EntryRows.{DynFits, RelaFits, SymbolFits, dynamic_rows, rela_rows, symbol_rows};
ghost use Rattle.c6x_elf_headers.specs.Names.{IsName, name_of, name_place, name_table};
ghost use Rattle.c6x_elf_headers.specs.declared.dyn_entry.Dyn.{Dyn};
ghost use Rattle.c6x_elf_headers.specs.declared.rela_entry.Rela.{Rela};
ghost use Rattle.c6x_elf_headers.specs.declared.symbol_entry.Symbol.{Symbol};

/// Symbols are read back from their bytes.
#[tactic(auto, using(crate::proofs::EntryRows::symbols_back))]
pub fn symbols_are_read_back()
    ensures { (big : Bool) (symbols : List Symbol) → All SymbolFits symbols → symbol_entries big (symbol_rows big symbols) ≡ symbols }
{}

/// Relocation entries are read back from their bytes.
#[tactic(auto, using(crate::proofs::EntryRows::relas_back))]
pub fn relas_are_read_back()
    ensures { (big : Bool) (relas : List Rela) → All RelaFits relas → rela_entries big (rela_rows big relas) ≡ relas }
{}

/// Dynamic entries are read back from their bytes.
#[tactic(auto, using(crate::proofs::EntryRows::dynamics_back))]
pub fn dynamics_are_read_back()
    ensures { (big : Bool) (entries : List Dyn) → All DynFits entries → dynamic_entries big (dynamic_rows big entries) ≡ entries }
{}

/// A name of a string table is found at its place.
#[tactic(auto, using(crate::proofs::NameTables::names_back))]
pub fn names_are_found()
    ensures { (names : List (List ℕ)) (number : ℕ) (d : List ℕ) → number < length names → IsName (slice_index_or names number d) → name_of (name_table names) (name_place names number) ≡ Some (slice_index_or names number d) }
{}
