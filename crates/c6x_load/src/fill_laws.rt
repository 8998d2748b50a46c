ghost use Rattle.c6x_load.specs.FillLaws.{DataHolds};
ghost use Rattle.c6x_load.specs.Reads.{RangesAreReadBack};

/// A data range holds its table, its fields, and elsewhere what the file has.
pub fn data_holds()
    ensures { DataHolds }
{}

/// Where a data range stands, each slot of its table and each field is read back as its number.
pub fn ranges_are_read_back()
    ensures { RangesAreReadBack }
{}
