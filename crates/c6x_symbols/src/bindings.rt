use crate::binding::Binding;
use crate::choosing::{binding_of, is_exported, is_imported, source_of};
use crate::group::Group;
use crate::names::Names;
use crate::source::Source;
use c6x_elf::Visibility;
use std::alloc::{AllocError, Global};
use std::marker::Model;

/// The names of objects in order of first appearance, and what the mentions of each say. Contracts see the list of both.
#[derive(Debug, Drop)]
pub struct Bindings<'a> {
    names: Names<'a>,
    groups: Vec<Group>,
}

impl<'a> Model for Bindings<'a> {
    ghost use Rattle.std.specs.Prelude.{◌≡◌, ◌≤◌, ◌^◌, List, length};
    ghost use Rattle.c6x_symbols.specs.Bindings.{BoundName};
    ghost use Rattle.c6x_symbols.specs.Growth.{AreInStep, bound_names};

    ghost Value = { List BoundName };

    ghost view = { λ b. bound_names b.names b.groups.items };

    ghost invariant = { λ b. AreInStep b.names b.groups.items };
}

impl<'a> Bindings<'a> {
    ghost use Rattle.std.specs.Prelude.{◌≡◌, ◌<◌, ◌≤◌, ◌^◌, IfOk, IfSome, length, map};
    ghost use Rattle.c6x_symbols.specs.Bindings.{binding_in, bound_at, exports_of, imports_of, is_exported, is_imported, name_in, source_in};
    ghost use Rattle.c6x_symbols.specs.Growth.{AreInStep, bound_names};
    ghost use Rattle.c6x_symbols.specs.Names.{name_at};

    /// These names with these groups.
    pub fn of(names: Names<'a>, groups: Vec<Group>) -> Bindings<'a>
        requires { AreInStep names groups.items }
        ensures { result ≡ bound_names names.entry groups.items }
    {
        Bindings { names, groups }
    }

    /// How many names there are.
    #[tactic(auto, using(crate::proofs::Bound::bound_length))]
    pub fn len(&self) -> u32
        ensures value { result ≡ length self.now }
        ensures few { result ≤ 2 ^ 28 }
    {
        self.groups.len() as u32
    }

    /// The name with this number.
    #[tactic(auto, using(crate::proofs::Bound::bound_length, crate::proofs::Bound::bound_here))]
    pub fn name(&self, number: u32) -> &[u8]
        requires { number < length self.now }
        ensures { result.now ≡ (bound_at self.now number).name }
    {
        self.names.get(number as usize)
    }

    /// What the mentions of the name with this number say together.
    #[tactic(auto, using(crate::proofs::Bound::bound_length, crate::proofs::Bound::bound_here, std::proofs::lemmas::List::get_or_default))]
    pub fn group(&self, number: u32) -> &Group
        requires { number < length self.now }
        ensures { result.now ≡ (bound_at self.now number).group }
    {
        &self.groups[number as usize]
    }

    /// What the name with this number is bound to.
    pub fn get(&self, number: u32) -> Binding
        requires { number < length self.now }
        ensures { result ≡ binding_in (bound_at self.now number) }
    {
        binding_of(self.name(number), self.group(number))
    }

    /// The number of a name. None exactly where no object mentions it.
    #[tactic(auto, using(crate::proofs::Bound::bound_length, crate::proofs::Bound::names_bound))]
    pub fn find(&self, name: &[u8]) -> Option<u32>
        ensures number { result ≡ name_at (map name_in self.now) name.now }
        ensures there { IfSome result (λ number. number < length self.now) }
    {
        match self.names.find(name) {
            Some(number) => Some(number as u32),
            None => None,
        }
    }

    /// The strictest visibility of the mentions of the name with this number.
    pub fn visibility(&self, number: u32) -> Visibility
        requires { number < length self.now }
        ensures { result ≡ (bound_at self.now number).group.visibility }
    {
        self.group(number).visibility
    }

    /// Where the symbol stands that the name with this number is written from, if the module defines it: its
    /// definition, and for a common the first one of the greatest size.
    #[tactic(auto, unfolding(crate::specs::Bindings::source_in))]
    pub fn source(&self, number: u32) -> Option<Source>
        requires { number < length self.now }
        ensures { result ≡ source_in (bound_at self.now number) }
    {
        source_of(self.group(number))
    }

    /// Whether the module defines the name with this number, and other modules see it.
    #[tactic(auto, unfolding(crate::specs::Bindings::is_exported))]
    pub fn is_exported(&self, number: u32) -> bool
        requires { number < length self.now }
        ensures { result ≡ is_exported (bound_at self.now number) }
    {
        is_exported(self.get(number), self.visibility(number))
    }

    /// Whether another module defines the name with this number.
    #[tactic(auto, unfolding(crate::specs::Bindings::is_imported))]
    pub fn is_imported(&self, number: u32) -> bool
        requires { number < length self.now }
        ensures { result ≡ is_imported (bound_at self.now number) }
    {
        is_imported(self.get(number))
    }

    /// The numbers of the exports, in order.
    #[tactic(auto, unfolding(crate::specs::Bindings::exports_of), using(crate::proofs::Bound::numbers_here, crate::proofs::Bound::numbers_past))]
    pub fn exports(&self, alloc: Global) -> Result<Vec<u32>, AllocError>
        ensures { IfOk result (λ numbers. numbers.items ≡ exports_of self.now) }
    {
        let mut numbers = Vec::new(alloc);
        for number in 0..self.len() {
            if self.is_exported(number) {
                numbers.push(number)?;
            }
        }
        Ok(numbers)
    }

    /// The numbers of the imports, in order.
    #[tactic(auto, unfolding(crate::specs::Bindings::imports_of), using(crate::proofs::Bound::numbers_here, crate::proofs::Bound::numbers_past))]
    pub fn imports(&self, alloc: Global) -> Result<Vec<u32>, AllocError>
        ensures { IfOk result (λ numbers. numbers.items ≡ imports_of self.now) }
    {
        let mut numbers = Vec::new(alloc);
        for number in 0..self.len() {
            if self.is_imported(number) {
                numbers.push(number)?;
            }
        }
        Ok(numbers)
    }
}
