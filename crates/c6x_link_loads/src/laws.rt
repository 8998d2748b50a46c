ghost use Rattle.std.specs.Prelude.{◌≡◌, List, None, Ok, false};
ghost use Rattle.c6x_elf.specs.Writing.{written};
ghost use Rattle.c6x_elf.specs.declared.file.File.{File};
ghost use Rattle.c6x_link.specs.Linked.{link_refusal, linked, parts_of};
ghost use Rattle.c6x_link_loads.specs.Linkable.{AreLinkable};
ghost use Rattle.c6x_link.specs.Working.{working_of};
ghost use Rattle.c6x_link_loads.specs.Loads.{AreLoadable, ReadsAs};
ghost use Rattle.c6x_plan.specs.declared.link_plan.LinkPlan.{LinkPlan};

/// What a link works out, where no rule is broken, is loadable.
pub fn links_load()
    ensures { (objects : List File) (plan : LinkPlan) → AreLinkable objects plan → link_refusal objects plan ≡ None → AreLoadable (parts_of (working_of objects plan)) }
{}

/// The bytes of a linked file are read as that file, and it as the module of what the link works out.
pub fn linked_bytes_load()
    ensures { (objects : List File) (plan : LinkPlan) (f : File) → AreLinkable objects plan → linked objects plan ≡ Ok f → ReadsAs (parts_of (working_of objects plan)) (written false f) }
{}
