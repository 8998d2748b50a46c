ghost use Rattle.c6x_cli.specs.Room.{GeneratedLacksRoomAlone, SourcesBecomeModules};

use c6x_gen::{modules_are_read, processes_are_bound, sources_are_assembled};

/// Each source that a number generates becomes a module, so that all is left to be bound and placed.
pub fn sources_become_modules()
    ensures { SourcesBecomeModules }
{
    sources_are_assembled();
    modules_are_read();
}

/// Want of room is all that stops what a number comes to, for every number.
pub fn generated_lacks_room_alone()
    ensures { GeneratedLacksRoomAlone }
{
    sources_become_modules();
    processes_are_bound();
}
