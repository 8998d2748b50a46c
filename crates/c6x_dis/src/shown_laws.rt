ghost use Rattle.c6x_dis.specs.Lines.{LinesAreRead};
ghost use Rattle.c6x_dis.specs.Pieces.{PiecesAreRead};

/// The bytes of atoms that stand apart are cut into their tokens, which stand for their lexemes.
pub fn pieces_are_read()
    ensures { PiecesAreRead }
{}

/// The shown line of a valid instruction stands apart, and is read as a statement that means the instruction.
pub fn lines_are_read()
    ensures { LinesAreRead }
{}
