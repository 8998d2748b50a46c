ghost use Rattle.std.specs.Prelude.{◌≡◌, ◌<◌, nat_le, IfSome};
ghost use Rattle.std.specs.List.{Contains, find};
ghost use Rattle.c6x_ports.specs.declared.limits.TheConstants.{NUMBERS};
ghost use Rattle.c6x_ports.specs.Picks.{IsReady, next_from};

/// The first of the numbers that is not below `from`.
fn first_from(ready: &[u32], from: u32) -> Option<u32>
    requires { IsReady ready.now }
    ensures value { result ≡ find (λ number. nat_le from number) ready.now }
    ensures below { IfSome result (λ number. number < NUMBERS) }
{
    ready.iter().copied().find(|number| from <= *number)
}

/// The first ready number that is met from another number on, upwards and round.
#[tactic(auto, unfolding(crate::specs::Picks::next_from))]
pub(crate) fn next_from(ready: &[u32], from: u32) -> u32
    requires { IsReady ready.now }
    ensures value { result ≡ next_from ready.now from }
    ensures ready { Contains ready.now result }
    ensures below { result < NUMBERS }
{
    first_from(ready, from).unwrap_or(ready[0])
}
