ghost use Rattle.c6x_relocated.specs.Entries.{EntriesHold};
ghost use Rattle.c6x_relocated.specs.Filled.{FilledFieldsHold};
ghost use Rattle.c6x_relocated.specs.Named.{EntriesAreNamed, StubsAreNamed, ValueWordsAreNamed};
ghost use Rattle.c6x_relocated.specs.Relocated.{LinkedFieldsHold};
ghost use Rattle.c6x_relocated.specs.ValueWords.{StubWordsHold, ValueWordsHold};

/// Where the module of a link stands, each relocation entry that the loader does not fill, and whose bits no later entry
/// and no entry that the loader fills has, holds its value at its moved place.
pub fn linked_fields_hold()
    ensures { LinkedFieldsHold }
{}

/// In every process, each relocation entry whose field the loader fills holds its value.
pub fn filled_fields_hold()
    ensures { FilledFieldsHold }
{}

/// In every process that uses the module of a link, each relocation entry of the link holds its value at its moved place,
/// if no later entry and no other one that the loader fills names its bits.
pub fn entries_hold()
    ensures { EntriesHold }
{}

/// In every process, each value word holds where its symbol stands, or the value of an absolute one, and each stub's word
/// where the definition of its import stands.
pub fn words_hold()
    ensures values { ValueWordsHold }
    ensures stubs { StubWordsHold }
{}

/// In every process, the definition of an import is found by its name.
pub fn imports_are_named()
    ensures entries { EntriesAreNamed }
    ensures values { ValueWordsAreNamed }
    ensures stubs { StubsAreNamed }
{}
