ghost use Rattle.c6x_dis.specs.Parts.{TextsAreRead};

/// The lines of a text are the lexemes of its parts, and each word is found again where it stands.
pub fn texts_are_read()
    ensures { TextsAreRead }
{}
