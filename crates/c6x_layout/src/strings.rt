ghost use Rattle.std.specs.Prelude.{◌≡◌, ◌+◌, ◌*◌, ◌^◌, ◌<◌, ◌≤◌, ◌++◌, All, length};
ghost use Rattle.c6x_base.specs.declared.limits.TheConstants.{MOST_HELD_BYTES};
ghost use Rattle.c6x_plan.specs.Limits.{IsLinkPlan, IsShortName};
ghost use Rattle.c6x_symbols.specs.Bindings.{bound_at};
ghost use Rattle.c6x_elf.specs.Names.{name_row};
ghost use Rattle.c6x_layout.specs.Dynamics.{module_names, own_name};
ghost use Rattle.c6x_layout.specs.Shared.{IsHeldName, is_shared, rows_size, shared_of, shared_with};

use crate::shared_names::SharedNames;
use c6x_base::Name;
use c6x_plan::LinkPlan;
use c6x_symbols::Bindings;

/// How many exports there are, or else imports, and the bytes of their names.
#[tactic(auto, unfolding(crate::specs::Shared::shared_of), using(crate::proofs::SharedCounts::shared_start, crate::proofs::SharedCounts::shared_end))]
pub fn shared_names(bindings: &Bindings, exported: bool) -> SharedNames
    requires { All IsHeldName bindings.now }
    ensures value { result ≡ shared_of exported bindings.now }
    ensures count { result.count ≤ 2 ^ 28 }
    ensures bytes { result.bytes ≤ 2 ^ 53 }
{
    let mut shared = SharedNames { count: 0, bytes: 0 };
    for number in 0..bindings.len() {
        shared = shared_with(shared, bindings, exported, number);
    }
    shared
}

/// With one name more, if it is one of these.
#[tactic(auto, using(crate::proofs::SharedCounts::held_here))]
fn shared_with(had: SharedNames, bindings: &Bindings, exported: bool, number: u32) -> SharedNames
    requires there { number < length bindings.now }
    requires held { All IsHeldName bindings.now }
    requires count { had.count ≤ 2 ^ 32 }
    requires bytes { had.bytes ≤ 2 ^ 60 }
    ensures value { result ≡ shared_with (is_shared exported (bound_at bindings.now number)) had (bound_at bindings.now number) }
    ensures count { result.count ≤ had.count + 1 }
    ensures bytes { result.bytes ≤ had.bytes + 2 ^ 25 }
{
    if !is_shared(bindings, exported, number) {
        return had;
    }
    SharedNames {
        count: had.count + 1,
        bytes: had.bytes + (bindings.name(number).len() as u64 + 1),
    }
}

/// Whether the name with this number is an export, or else an import.
fn is_shared(bindings: &Bindings, exported: bool, number: u32) -> bool
    requires { number < length bindings.now }
    ensures { result ≡ is_shared exported (bound_at bindings.now number) }
{
    if exported {
        bindings.is_exported(number)
    } else {
        bindings.is_imported(number)
    }
}

/// The bytes of the names of the module itself and of those that it needs.
#[tactic(auto, unfolding(crate::specs::Dynamics::module_names), using(crate::proofs::SharedCounts::rows_size_append))]
pub fn module_bytes(plan: &LinkPlan) -> u64
    requires { IsLinkPlan plan.now }
    ensures value { result ≡ rows_size (module_names plan.now) }
    ensures few { result ≤ 2 ^ 20 }
{
    own_bytes(plan) + needed_bytes(plan.needed.as_slice())
}

/// The bytes of the module's own name.
fn own_bytes(plan: &LinkPlan) -> u64
    requires { IsLinkPlan plan.now }
    ensures value { result ≡ rows_size (own_name plan.now.soname) }
    ensures few { result ≤ 2 ^ 10 }
{
    match &plan.soname {
        Some(name) => name_bytes(name),
        None => 0,
    }
}

/// The bytes of these names.
#[tactic(auto, using(crate::proofs::SharedCounts::rows_more))]
fn needed_bytes(names: &[Name]) -> u64
    requires few { length names.now ≤ 32 }
    requires short { All IsShortName names.now }
    ensures value { result ≡ rows_size names.now }
    ensures few { result ≤ 2 ^ 12 }
{
    let mut bytes = 0;
    for name in names {
        bytes += name_bytes(name);
    }
    bytes
}

/// The bytes of a name, with the zero byte behind it.
fn name_bytes(name: &Name) -> u64
    requires { IsShortName name.now }
    ensures value { result ≡ length (name_row name.now) }
    ensures few { result ≤ 65 }
{
    name.as_bytes().len() as u64 + 1
}
