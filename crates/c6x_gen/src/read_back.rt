ghost use Rattle.c6x_gen.specs.Modules.{ExecutablesAreRead, LibrariesAreRead};

use crate::assembled::sources_are_assembled;
use crate::linked::{objects_are_linked, objects_are_read};

/// The executable of each number and each of its libraries is read as a module, of which this much is told.
pub fn modules_are_read()
    ensures executable { ExecutablesAreRead }
    ensures libraries { LibrariesAreRead }
{
    objects_are_read();
    sources_are_assembled();
    objects_are_linked();
}
