ghost use Rattle.std.specs.Prelude.{◌≡◌, ℕ, Bool, List};
ghost use Rattle.c6x_asm_lines.specs.Names.{first_named};

/// The names of a table's rows.
pub trait Names<T> {
    ghost is_name: { T → List ℕ → Bool };

    /// Whether this word names this row.
    fn is_name(row: T, word: &[u8]) -> bool
        ensures { result ≡ is_name row word.now };
}

/// The first row of a table that this word names, if it names one.
pub fn row_named<N: Names<T>, T: Copy>(rows: &[T], word: &[u8]) -> Option<T>
    ensures { result ≡ first_named N.is_name rows.now word.now }
{
    rows.iter().copied().find(|row| N::is_name(*row, word))
}
