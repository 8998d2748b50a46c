ghost use Rattle.c6x_reloc.specs.Shift.{FixedShift, GotShift, PacketShift, TableShift};

/// A value relative to the fetch packet is the same where the symbol and the place move by one multiple of 32.
pub fn packet_shift()
    ensures { PacketShift }
{}

/// A value relative to the table is the same where the symbol and the table move together.
pub fn table_shift()
    ensures { TableShift }
{}

/// A value of a GOT word is the same where that word and the table move together.
pub fn got_shift()
    ensures { GotShift }
{}

/// No address that moves enters the value of another kind on a symbol that stays.
pub fn fixed_shift()
    ensures { FixedShift }
{}
