ghost use Rattle.std.specs.Prelude.{◌≡◌, ℕ, List, false};
ghost use Rattle.c6x_elf.specs.Writing.{written};
ghost use Rattle.c6x_layout.specs.File.{linked_file};
ghost use Rattle.c6x_layout.specs.declared.parts.Parts.{Parts};
ghost use Rattle.c6x_link_loads.specs.Loads.{AreLoadable, ReadsAs, loaded};
ghost use Rattle.c6x_module.specs.Modules.{module_in};

/// The file of loadable parts is read as the module of those parts, or breaks the rule L9 or L10 that they break; it breaks
/// no other one.
pub fn linked_files_load()
    ensures { (p : Parts) → AreLoadable p → (name : List ℕ) → module_in false name (linked_file p) ≡ loaded name p }
{}

/// So are the bytes that it is written as.
pub fn written_files_load()
    ensures { (p : Parts) → AreLoadable p → ReadsAs p (written false (linked_file p)) }
{}
