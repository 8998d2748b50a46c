ghost use Rattle.std.specs.Prelude.{◌≡◌, ◌<◌, IfSome, length, map};
ghost use Rattle.std.specs.List.{position};
ghost use Rattle.c6x_ports.specs.Chooser.{Chooser};
ghost use Rattle.c6x_cli.specs.Meaning.{HasPolicy};
ghost use Rattle.c6x_cli.specs.Serving.{served};
ghost use Rattle.c6x_cli_words.specs.Requests.{HasSmallNumber, kind_asked};
ghost use Rattle.c6x_cli_steps.specs.Policies.{first_of, same_kind};

use c6x_cli_words::Request;
use c6x_ports::{Kind, Policy};

/// The request, where the policy that it asks for is there.
pub fn serve(request: Request, policies: &Vec<Box<dyn Policy>>) -> Option<Request>
    requires { HasSmallNumber (Some request) }
    ensures served { result ≡ served (Some request) (map chooser policies.now.items) }
    ensures small { HasSmallNumber result }
    ensures there { HasPolicy (kind_asked result) (map chooser policies.now.items) }
{
    match kind_asked(&request) {
        Some(kind) if first_policy(policies.as_slice(), kind).is_none() => None,
        _ => Some(request),
    }
}

/// The kind of policies that a request asks.
fn kind_asked(request: &Request) -> Option<Kind>
    ensures { result ≡ kind_asked (Some request.now) }
{
    match request {
        Request::Run { policy, .. } => Some(*policy),
        Request::Generate { .. } => Some(Kind::Round),
        _ => None,
    }
}

/// The place of the first policy of a kind.
pub fn first_policy(policies: &[Box<dyn Policy>], kind: Kind) -> Option<usize>
    ensures first { result ≡ first_of kind (map chooser policies.now) }
    ensures within { IfSome result (λ place. place < length policies.now) }
{
    place_of(policies, kind)
}

/// The same, over the policies themselves.
fn place_of(policies: &[Box<dyn Policy>], kind: Kind) -> Option<usize>
    ensures place { result ≡ position (λ policy. same_kind (chooser policy).kind kind) policies.now }
    ensures within { IfSome result (λ place. place < length policies.now) }
{
    let mut place = 0;
    'places: while place < policies.len() {
        if is_of(&policies[place], kind) {
            return Some(place);
        }
        place += 1;
    }
    None
}

/// Whether a policy is of this kind.
fn is_of(policy: &Box<dyn Policy>, kind: Kind) -> bool
    ensures { result ≡ same_kind (chooser policy.now).kind kind }
{
    is_kind(policy.kind(), kind)
}

/// Whether two kinds are the same.
fn is_kind(kind: Kind, other: Kind) -> bool
    ensures { result ≡ same_kind kind other }
{
    match (kind, other) {
        (Kind::Round, Kind::Round)
        | (Kind::Last, Kind::Last)
        | (Kind::Drawn, Kind::Drawn)
        | (Kind::Other, Kind::Other) => true,
        _ => false,
    }
}
