ghost use Rattle.c6x_layout.specs.Layouts.{Laying};
ghost use Rattle.c6x_layout.specs.Apart.{AreApart};

/// No two sections, commons, stubs, words or tables of a linked file share an address, and they stand in their order.
pub fn parts_are_apart()
    ensures { (l : Laying) → AreApart l }
{}
