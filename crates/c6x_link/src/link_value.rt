use crate::addresses::{address, addresses_of};
use crate::section_key::SectionKey;
use crate::symbol_rows::{found_symbol, symbol_rows};
use c6x_base::Row;
use c6x_dsbt::{Tables, Wanted};
use c6x_elf::{File, Symbol};
use c6x_layout::{Layout, Regions, regions_of};
use c6x_plan::LinkPlan;
use c6x_symbols::{Bindings, Region};
use indexmap::IndexMap;
use std::alloc::{AllocError, Global};
use std::marker::Model;

/// What a link has worked out, with its sections' addresses, regions and symbols at hand. Contracts see what was worked out.
#[derive(Debug, Drop)]
pub struct Link<'a, 'b> {
    objects: &'a [File],
    plan: &'a LinkPlan,
    bindings: &'a Bindings<'b>,
    tables: &'a Tables,
    layout: &'a Layout,
    regions: Regions,
    symbols: Vec<Row<Symbol>>,
    addresses: IndexMap<SectionKey, u32>,
}

impl<'a, 'b> Model for Link<'a, 'b> {
    ghost use Rattle.std.specs.Prelude.{◌≡◌};
    ghost use Rattle.indexmap.specs.IndexMap.{get};
    ghost use Rattle.c6x_link.specs.SectionAddresses.{found_in, same_key};
    ghost use Rattle.c6x_link.specs.Symbols.{AreRows};
    ghost use Rattle.c6x_link.specs.Working.{Working};
    ghost use Rattle.c6x_link.specs.declared.section_key.SectionKey.{SectionKey as KeyOf};

    ghost Value = { Working };

    ghost view = { λ l. record { objects = l.objects.now; plan = l.plan.now; bindings = l.bindings.now; words = l.tables.now.words; stubs = l.tables.now.stubs; layout = l.layout.now } };

    ghost invariant = { λ l. AreRows l.objects.now l.regions l.symbols.items × ((key : KeyOf) → get same_key l.addresses key ≡ found_in l.layout.now.places key) };
}

impl<'a, 'b> Link<'a, 'b> {
    ghost use Rattle.std.specs.Prelude.{◌≡◌, IfOk};
    ghost use Rattle.c6x_layout.specs.Regions.{bound_region, section_region, symbol_in, wanted_region};
    ghost use Rattle.c6x_link.specs.Addresses.{address_in};

    /// All that is worked out of these objects by this plan.
    pub fn of(
        alloc: Global,
        objects: &'a [File],
        plan: &'a LinkPlan,
        bindings: &'a Bindings<'b>,
        tables: &'a Tables,
        layout: &'a Layout,
    ) -> Result<Link<'a, 'b>, AllocError>
        ensures { IfOk result (λ link. link ≡ record { objects = objects.now; plan = plan.now; bindings = bindings.now; words = tables.now.words; stubs = tables.now.stubs; layout = layout.now }) }
    {
        let regions = regions_of(alloc, objects)?;
        let symbols = symbol_rows(alloc, objects)?;
        let addresses = addresses_of(alloc, layout.places.as_slice())?;
        Ok(Link {
            objects,
            plan,
            bindings,
            tables,
            layout,
            regions,
            symbols,
            addresses,
        })
    }

    /// The objects.
    pub fn objects(&self) -> &[File]
        ensures { result.now ≡ self.now.objects }
    {
        self.objects
    }

    /// The plan.
    pub fn plan(&self) -> &LinkPlan
        ensures { result.now ≡ self.now.plan }
    {
        self.plan
    }

    /// What the names are bound to.
    pub fn bindings(&self) -> &Bindings<'b>
        ensures { result.now ≡ self.now.bindings }
    {
        self.bindings
    }

    /// The value words and the stubs.
    pub fn tables(&self) -> &Tables
        ensures words { result.now.words ≡ self.now.words }
        ensures stubs { result.now.stubs ≡ self.now.stubs }
    {
        self.tables
    }

    /// The addresses.
    pub fn layout(&self) -> &Layout
        ensures { result.now ≡ self.now.layout }
    {
        self.layout
    }

    /// The symbol with this number of an object, if there is one.
    #[tactic(auto, using(crate::proofs::Symbols::symbol_found))]
    pub fn symbol(&self, object: u32, number: u32) -> Option<Symbol>
        ensures { result ≡ symbol_in self.now.objects object number }
    {
        found_symbol(&self.symbols, object, number)
    }

    /// Where a section of an object lies.
    pub fn section_region(&self, object: u32, section: u32) -> Region
        ensures { result ≡ section_region self.now.objects object section }
    {
        self.regions.section(object, section)
    }

    /// Where the name with this number lies.
    pub fn bound_region(&self, number: u32) -> Region
        ensures { result ≡ bound_region self.now.objects self.now.bindings number }
    {
        self.regions.bound(self.bindings, number)
    }

    /// Where that lies for which a symbol stands.
    pub fn wanted_region(&self, wanted: Wanted) -> Region
        ensures { result ≡ wanted_region self.now.objects self.now.bindings wanted }
    {
        self.regions.wanted(self.bindings, wanted)
    }

    /// The address of a section of an object; 0 where it has no memory.
    #[tactic(auto, using(crate::proofs::FoundTargets::address_is))]
    pub fn section_address(&self, object: u32, section: u32) -> u32
        ensures { result ≡ address_in self.now.layout.places object section }
    {
        address(&self.addresses, object, section)
    }
}
