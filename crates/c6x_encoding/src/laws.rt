ghost use Rattle.std.specs.Prelude.{◌≡◌, ◌↔◌, ℕ, Some};
ghost use Rattle.c6x_encoding.specs.declared.instr.Instr.{Instr};
ghost use Rattle.c6x_encoding.specs.Spelling.{Spells, IsValid};
ghost use Rattle.c6x_encoding.specs.Decoded.{decoded};

/// A word spells at most one instruction.
pub fn at_most_one_instruction()
    ensures { (i j : Instr) (word : ℕ) → Spells i word → Spells j word → i ≡ j }
{}

/// A valid instruction is spelled by exactly one word.
pub fn exactly_one_word()
    ensures { (i : Instr) → IsValid i → (word : ℕ) × Spells i word × ((other : ℕ) → Spells i other → other ≡ word) }
{}

/// A word decodes to the instruction that it spells, and to none where it spells none.
pub fn decoded_iff_spelled()
    ensures { (i : Instr) (word : ℕ) → (decoded word ≡ Some i) ↔ Spells i word }
{}
