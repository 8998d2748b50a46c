ghost use Rattle.c6x_relocated.specs.Holds.{FieldsHold, WordsHold};
ghost use Rattle.c6x_relocated.specs.Moved.{ShiftIsPlace, StartIsSum, TextShift, ValueStays};

/// An entry's value is the same where its module stands, if the loader does not fill its field.
pub fn value_stays()
    ensures { ValueStays }
{}

/// A word that the loader fills is the sum of its entry; an address stands where its range does; a text moves by
/// a multiple of 32.
pub fn words_are_sums()
    ensures start { StartIsSum }
    ensures place { ShiftIsPlace }
    ensures text { TextShift }
{}

/// The field of an entry holds its value where its module stands.
pub fn fields_hold()
    ensures { FieldsHold }
{}

/// A word that the loader writes holds the value of its entry.
pub fn moved_words_hold()
    ensures { WordsHold }
{}
