ghost use Rattle.c6x_gen.specs.Assembles.{SourcesAreAssembled};

/// The executable of each number and each of its libraries are texts that break no rule, and have an object.
pub fn sources_are_assembled()
    ensures { SourcesAreAssembled }
{}
