ghost use Rattle.std.specs.Prelude.{◌≡◌, ◌+◌, ◌^◌, ◌<◌, ◌≤◌};
ghost use Rattle.std.specs.Option.{SomeIff};
ghost use Rattle.c6x_spec.specs.Places.{IsLeastPlace, least_place};
ghost use Rattle.c6x_spec.specs.Rounded.{IsRounded, rounded};

/// The least multiple of `align` that is not below `from`.
#[tactic(auto, using(c6x_spec::proofs::RoundedUp::rounded_is_least))]
pub fn least_multiple(from: u64, align: u32) -> u64
    requires some { 1 ≤ align }
    requires room { from < 2 ^ 63 }
    ensures value { result ≡ rounded from align }
    ensures least { IsRounded from align result }
    ensures near { result < from + align }
{
    let align = u64::from(align);
    (from + (align - 1)) / align * align
}

/// The least multiple of `align` that is not below `v`. None exactly where it is 2^32 or more.
pub fn round_up(v: u32, align: u32) -> Option<u32>
    requires { 1 ≤ align }
    ensures exact { SomeIff result (rounded v align < 2 ^ 32) (rounded v align) }
    ensures least { IsRounded v align (rounded v align) }
{
    u32::try_from(least_multiple(u64::from(v), align)).ok()
}

/// The least place not below the cursor that is congruent to the address modulo the step.
#[tactic(auto, unfolding(c6x_spec::specs::Places::least_place), using(c6x_spec::proofs::LeastPlaces::least_place_is))]
pub fn least_place(cursor: u64, vaddr: u32, step: u32) -> u64
    requires some { 1 ≤ step }
    requires room { cursor < 2 ^ 63 }
    ensures value { result ≡ least_place cursor vaddr step }
    ensures least { IsLeastPlace cursor vaddr step result }
    ensures near { result < cursor + step }
{
    let step = u64::from(step);
    cursor + (u64::from(vaddr) + (step - cursor % step)) % step
}
