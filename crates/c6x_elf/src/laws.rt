ghost use Rattle.std.specs.Prelude.{ℕ, Bool, List, IsTrue};
ghost use Rattle.c6x_elf.specs.Alone.{HasSegmentsAlone};
ghost use Rattle.c6x_elf.specs.Form.{HasReadForm, IsTidy};
ghost use Rattle.c6x_elf.specs.Lists.{IsUnder, is_under};
ghost use Rattle.c6x_elf.specs.Tables.{IsWellFormed};
ghost use Rattle.c6x_elf.specs.declared.file.File.{File};

/// Read form is what the gABI says of sections, tables and entries, one by one.
pub fn read_form_is_well_formed()
    ensures says { (big : Bool) (file : File) → HasReadForm big file → IsWellFormed big file }
    ensures holds { (big : Bool) (file : File) → IsWellFormed big file → HasReadForm big file }
{}

/// A file of few segments and no sections, of bounded length, is tidy.
pub fn segments_alone_are_tidy()
    ensures { (big : Bool) (file : File) → HasSegmentsAlone file → IsTidy big file }
{}

/// A name is under another exactly where it is that name, or that name, a dot and more.
pub fn names_are_under_their_front()
    ensures says { (front : List ℕ) (name : List ℕ) → IsTrue (is_under front name) → IsUnder front name }
    ensures holds { (front : List ℕ) (name : List ℕ) → IsUnder front name → IsTrue (is_under front name) }
{}
