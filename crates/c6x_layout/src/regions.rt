ghost use Rattle.std.specs.Prelude.{◌≡◌, [], false, List, IfOk, map, slice_index_or};
ghost use Rattle.c6x_symbols.specs.declared.region.Region.TheVariants.{Absolute};
ghost use Rattle.c6x_elf.specs.declared.file.File.{File as FileOf};
ghost use Rattle.c6x_layout.specs.RegionRows.{AreRegions, class_in, own_region, section_row, symbol_in_row, symbol_row};
ghost use Rattle.c6x_layout.specs.Regions.{binding_region, bound_region, section_region, symbol_region, wanted_region, zone_region};

use c6x_base::Row;
use c6x_dsbt::Wanted;
use c6x_elf::{File, Section, SectionClass, Symbol, symbols};
use c6x_symbols::{Binding, Bindings, Region, Zone, is_allocated, zone_of};
use std::alloc::{AllocError, Global};

/// Where the sections and the definitions of all objects lie, each object's in a row.
#[derive(Debug, Drop)]
pub struct Regions {
    pub sections: Row<Row<Region>>,
    pub symbols: Row<Row<Region>>,
}

/// Where the sections and the definitions of these objects lie.
#[tactic(auto, using(crate::proofs::Rows::row_more))]
pub fn regions_of(alloc: Global, objects: &[File]) -> Result<Regions, AllocError>
    ensures { IfOk result (λ regions. AreRegions objects.now regions) }
{
    let mut sections = Row::new(alloc);
    let mut symbols = Row::new(alloc);
    for object in objects {
        let row = section_row(alloc, object)?;
        symbols.push(symbol_row(alloc, object, row.as_slice())?)?;
        sections.push(row)?;
    }
    Ok(Regions { sections, symbols })
}

/// Where the sections of an object lie.
#[tactic(auto, unfolding(crate::specs::RegionRows::section_row), using(crate::proofs::Rows::row_more))]
fn section_row(alloc: Global, object: &File) -> Result<Row<Region>, AllocError>
    ensures { IfOk result (λ row. row ≡ section_row object.now) }
{
    let mut row = Row::new(alloc);
    for section in object.sections.as_slice() {
        row.push(own_region(object, section))?;
    }
    Ok(row)
}

/// Where a section of an object lies.
fn own_region(object: &File, section: &Section) -> Region
    ensures { result ≡ own_region object.now.names object.now.sections section.now }
{
    if !is_allocated(section) {
        return Region::Absolute;
    }
    match zone_of(object, section) {
        Zone::Text => Region::Text,
        Zone::Near | Zone::Far => Region::Data,
    }
}

/// Where the symbols of an object lie whose sections lie here.
#[tactic(auto, unfolding(crate::specs::RegionRows::symbol_row), using(crate::proofs::Rows::row_more))]
fn symbol_row(alloc: Global, object: &File, sections: &[Region]) -> Result<Row<Region>, AllocError>
    requires { sections.now ≡ section_row object.now }
    ensures { IfOk result (λ row. row ≡ symbol_row object.now) }
{
    let symbols = symbols(alloc, false, object.sections.as_slice())?;
    let mut row = Row::new(alloc);
    for symbol in &symbols {
        row.push(symbol_in_row(sections, symbol))?;
    }
    Ok(row)
}

/// Where a symbol of an object lies whose sections lie here.
fn symbol_in_row(sections: &[Region], symbol: &Symbol) -> Region
    ensures { result ≡ symbol_in_row sections.now symbol.now }
{
    match symbol.class() {
        SectionClass::Section(section) => item(sections, u32::from(section)),
        SectionClass::Undefined
        | SectionClass::Absolute
        | SectionClass::Common
        | SectionClass::NearCommon => Region::Absolute,
    }
}

/// An item of a row; a definition that is not there is absolute.
#[tactic(auto, using(std::proofs::lemmas::List::get_or_default, std::proofs::lemmas::List::get_or_past))]
fn item(row: &[Region], number: u32) -> Region
    ensures { result ≡ slice_index_or row.now number Absolute }
{
    if number as usize >= row.len() {
        return Region::Absolute;
    }
    row[number as usize]
}

/// The item of a row of rows.
#[tactic(auto, using(std::proofs::lemmas::List::get_or_default, std::proofs::lemmas::List::get_or_past))]
fn entry(rows: &[Row<Region>], row: u32, number: u32) -> Region
    ensures { result ≡ slice_index_or (slice_index_or rows.now row []) number Absolute }
{
    if row as usize >= rows.len() {
        return Region::Absolute;
    }
    item(rows[row as usize].as_slice(), number)
}

impl Regions {
    /// Where a section of an object lies.
    #[tactic(auto, using(crate::proofs::Rows::section_there))]
    pub fn section(&self, object: u32, section: u32) -> Region
        ensures { (objects : List FileOf) → AreRegions objects self.now → result ≡ section_region objects object section }
    {
        entry(self.sections.as_slice(), object, section)
    }

    /// Where a symbol of an object lies.
    #[tactic(auto, using(crate::proofs::Rows::symbol_there))]
    pub fn symbol(&self, object: u32, number: u32) -> Region
        ensures { (objects : List FileOf) → AreRegions objects self.now → result ≡ symbol_region objects object number }
    {
        entry(self.symbols.as_slice(), object, number)
    }

    /// Where that lies to which a name is bound.
    pub fn binding(&self, binding: Binding) -> Region
        ensures { (objects : List FileOf) → AreRegions objects self.now → result ≡ binding_region objects binding }
    {
        match binding {
            Binding::Strong { object, symbol } | Binding::Weak { object, symbol } => {
                self.symbol(object, symbol)
            }
            Binding::Common { .. } | Binding::Table => Region::Data,
            Binding::Import { .. } => Region::Import,
        }
    }

    /// Where the name with this number lies.
    #[tactic(auto, unfolding(crate::specs::Regions::bound_region), using(std::proofs::lemmas::List::get_or_past))]
    pub fn bound(&self, bindings: &Bindings, number: u32) -> Region
        ensures { (objects : List FileOf) → AreRegions objects self.now → result ≡ bound_region objects bindings.now number }
    {
        if number >= bindings.len() {
            return Region::Import;
        }
        self.binding(bindings.get(number))
    }

    /// Where that lies for which the symbol of an entry stands.
    #[tactic(auto, unfolding(crate::specs::Regions::wanted_region))]
    pub fn wanted(&self, bindings: &Bindings, wanted: Wanted) -> Region
        ensures { (objects : List FileOf) → AreRegions objects self.now → result ≡ wanted_region objects bindings.now wanted }
    {
        match wanted {
            Wanted::Bound(number) => self.bound(bindings, number),
            Wanted::Local { object, symbol } => {
                if symbol == 0 {
                    return Region::Absolute;
                }
                self.symbol(object, symbol)
            }
        }
    }
}
