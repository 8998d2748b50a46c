ghost use Rattle.c6x_load.specs.ProcessLaws.{PlacedAreBelow};

/// The areas of the processes of a placement end below the last address.
pub fn placed_are_below()
    ensures { PlacedAreBelow }
{}
