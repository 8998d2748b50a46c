ghost use Rattle.c6x_place.specs.Laws.{OnePlacement};

/// A plan has one placement, or none.
pub fn one_placement()
    ensures { OnePlacement }
{}
