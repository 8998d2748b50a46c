ghost use Rattle.std.specs.Prelude.{◌≡◌, ◌<◌, ◌==◌, IfSome, length, position};
ghost use Rattle.std.specs.Option.{option_copied};
ghost use Rattle.c6x_elf_headers.specs.Names.{name_of};

/// The bytes from `at` up to the first zero byte; None exactly where `at` is past the table or no zero
/// byte follows.
#[tactic(auto, unfolding(crate::specs::Names::name_of))]
pub fn name_at(table: &[u8], at: u32) -> Option<&[u8]>
    ensures { option_copied result ≡ name_of table.now at }
{
    let at = at as usize;
    if table.len() < at {
        return None;
    }
    let rest = &table[at..];
    let len = zero_in(rest)?;
    Some(&rest[..len])
}

/// The place of the first zero byte.
fn zero_in(text: &[u8]) -> Option<usize>
    ensures place { result ≡ position (λ b. b == 0) text.now }
    ensures within { IfSome result (λ i. i < length text.now) }
{
    text.iter().position(|b| *b == 0)
}
