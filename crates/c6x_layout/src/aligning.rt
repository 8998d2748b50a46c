ghost use Rattle.std.specs.Prelude.{◌≡◌, ◌≤◌, false, true, length, filter, max};
ghost use Rattle.c6x_symbols.specs.Sections.{is_allocated};
ghost use Rattle.c6x_plan.specs.declared.limits.TheConstants.{MOST_OBJECTS};
ghost use Rattle.c6x_symbols.specs.Rules.{Passes, first_along};
ghost use Rattle.c6x_layout.specs.Alignments.{align_refusal, alignments_refusal, common_align_refusal, is_alignment, is_shared_common, object_align_refusal, section_align_refusal};
ghost use Rattle.c6x_layout.specs.Groups.{align_with, in_group};
ghost use Rattle.c6x_layout.specs.Layouts.{align_or, greatest_align, greatest_common};
ghost use Rattle.c6x_layout.specs.Places.{room_of};

use crate::file_limits::MOST_ALIGN;
use crate::group::{Group, is_in};
use c6x_elf::{File, Section, SectionClass, Symbol, SymbolBinding, symbols};
use c6x_symbols::{Binding, Bindings, LinkError, LinkRule, Part, check, is_allocated};
use std::alloc::Global;

/// Checks the alignments of each object's sections with memory and then of its commons (K3).
#[tactic(auto, unfolding(crate::specs::Alignments::alignments_refusal), using(crate::proofs::Aligned::objects_drop, crate::proofs::Aligned::objects_all))]
pub fn check_alignments(alloc: Global, objects: &[File]) -> Result<(), LinkError>
    requires few { length objects.now ≤ MOST_OBJECTS }
    ensures { Passes result (alignments_refusal objects.now) }
{
    for (number, object) in objects.iter().enumerate() {
        check_object(alloc, number as u32, object)?;
    }
    Ok(())
}

/// Checks those of an object.
#[tactic(auto, unfolding(crate::specs::Alignments::object_align_refusal))]
fn check_object(alloc: Global, number: u32, object: &File) -> Result<(), LinkError>
    ensures { Passes result (object_align_refusal (number, object.now)) }
{
    check_sections(alloc, number, object.sections.as_slice())?;
    let symbols = symbols(alloc, false, object.sections.as_slice())?;
    check_commons(alloc, number, &symbols)
}

/// Checks those of an object's sections.
#[tactic(auto, using(crate::proofs::Aligned::filtered_drop, crate::proofs::Aligned::filtered_all))]
fn check_sections(alloc: Global, object: u32, sections: &[Section]) -> Result<(), LinkError>
    ensures { Passes result (first_along (section_align_refusal object) (filter is_allocated sections.now)) }
{
    for section in sections {
        if is_allocated(section) {
            check_align(alloc, object, section.align)?;
        }
    }
    Ok(())
}

/// Checks those of an object's commons.
#[tactic(auto, using(crate::proofs::Aligned::filtered_drop, crate::proofs::Aligned::filtered_all))]
fn check_commons(alloc: Global, object: u32, symbols: &[Symbol]) -> Result<(), LinkError>
    ensures { Passes result (first_along (common_align_refusal object) (filter is_shared_common symbols.now)) }
{
    for symbol in symbols {
        if is_shared_common(symbol) {
            check_align(alloc, object, symbol.value)?;
        }
    }
    Ok(())
}

/// Checks one alignment.
fn check_align(alloc: Global, object: u32, align: u32) -> Result<(), LinkError>
    ensures { Passes result (align_refusal object align) }
{
    check(
        alloc,
        is_alignment(align),
        LinkRule::Alignment,
        object,
        align,
    )
}

/// Whether this is an alignment: 0, or a power of two up to the greatest.
#[tactic(auto, unfolding(crate::specs::Alignments::is_alignment))]
fn is_alignment(align: u32) -> bool
    ensures { result ≡ is_alignment align }
{
    align == 0 || (align.is_power_of_two() && align <= MOST_ALIGN)
}

/// Whether a symbol is a common that other objects see.
fn is_shared_common(symbol: &Symbol) -> bool
    ensures { result ≡ is_shared_common symbol.now }
{
    let seen = match symbol.binding() {
        SymbolBinding::Local => false,
        SymbolBinding::Global | SymbolBinding::Weak => true,
    };
    seen && matches!(
        symbol.class(),
        SectionClass::Common | SectionClass::NearCommon
    )
}

/// The greatest alignment of the sections of a group, and no less than this.
#[tactic(auto, using(crate::proofs::Aligned::greatest_drop, crate::proofs::Aligned::greatest_all))]
pub fn greatest_align(parts: &[Part], group: Group, least: u32) -> u32
    ensures { result ≡ greatest_align least (filter (in_group group) parts.now) }
{
    let mut align = least;
    for part in parts {
        align = with_part(align, group, part);
    }
    align
}

fn with_part(align: u32, group: Group, part: &Part) -> u32
    ensures { result ≡ align_with (in_group group part.now) align part.now }
{
    if is_in(group, part) {
        align.max(part.align)
    } else {
        align
    }
}

/// The greatest alignment of the commons, and no less than this.
#[tactic(auto, using(crate::proofs::Aligned::common_drop, crate::proofs::Aligned::common_all))]
pub fn greatest_common(bindings: &Bindings, least: u32) -> u32
    ensures { result ≡ greatest_common least bindings.now }
{
    let mut align = least;
    for number in 0..bindings.len() {
        align = align.max(common_align(bindings.get(number)));
    }
    align
}

/// The alignment of the common of a binding; 0 where it has none.
fn common_align(binding: Binding) -> u32
    ensures { result ≡ max (align_or (room_of true binding)) (align_or (room_of false binding)) }
{
    match binding {
        Binding::Common { align, .. } => align,
        _ => 0,
    }
}
