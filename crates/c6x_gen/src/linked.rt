ghost use Rattle.c6x_gen.specs.LinkedPlans.{ExecutablesAreLinked, LibrariesAreLinked};
ghost use Rattle.c6x_gen.specs.Readable.{ObjectsAreRead};
ghost use Rattle.c6x_gen.specs.LinkedSources.{SourcesAreLinked};

use crate::assembled::sources_are_assembled;

/// What is assembled is an object as a linker takes it, whatever the text.
pub fn objects_are_read()
    ensures { ObjectsAreRead }
{}

/// The objects of the executable of each number and of each of its libraries break no rule of a link.
pub fn objects_are_linked()
    ensures executable { ExecutablesAreLinked }
    ensures libraries { LibrariesAreLinked }
{}

/// Each source that a number generates is assembled, and its object linked by its plan.
pub fn sources_are_linked()
    ensures { SourcesAreLinked }
{
    sources_are_assembled();
}
