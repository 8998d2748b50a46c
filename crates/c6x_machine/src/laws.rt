//! Facts about the definitions of the machine, each the contract of a function that does nothing.

ghost use Rattle.c6x_machine.specs.Laws.{CyclesCount, EndsStay, PacketsAreAtTheirAddress, RegistersAreLastWrites, StartsAreMeant};

/// A register holds what the write with the greatest landing cycle that has come put there, else its start value.
pub fn registers_are_last_writes()
    ensures { RegistersAreLastWrites }
{}

/// After its end nothing of a process changes.
pub fn ends_stay()
    ensures { EndsStay }
{}

/// Each cycle counts one, the last one too.
pub fn cycles_count()
    ensures { CyclesCount }
{}

/// The packet that the machine issues at an address is the one that stands there.
pub fn packets_are_at_their_address()
    ensures { PacketsAreAtTheirAddress }
{}

/// What a process starts from has nothing behind it.
pub fn starts_have_no_first_part()
    ensures { StartsAreMeant }
{}
