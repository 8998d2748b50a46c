ghost use Rattle.std.specs.Prelude.{◌≡◌, ◌≤◌};
ghost use Rattle.c6x_ports.specs.Numbered.{fails_next, next_call, raised};

/// Gives the next call its number, and says whether that number is among those that fail.
pub(crate) fn is_failing(calls: &mut u32, failing: &[u32]) -> bool
    ensures answer { result ≡ fails_next failing.now calls.old }
    ensures counted { calls.new ≡ next_call calls.old }
{
    let number = *calls;
    *calls = number.saturating_add(1);
    number < u32::MAX && failing.contains(&number)
}

/// Counts one more.
pub(crate) fn raise(count: &mut u64)
    ensures value { count.new ≡ raised count.old }
    ensures kept { count.old ≤ count.new }
{
    *count = count.saturating_add(1);
}
