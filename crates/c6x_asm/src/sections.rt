ghost use Rattle.std.specs.Prelude.{◌≡◌, ◌++◌, ◌∷◌, [], ◌<◌, None, IfSome, OnOk, vec_len};
ghost use Rattle.c6x_asm_lines.specs.Bytes.{bytes_at};
ghost use Rattle.c6x_asm_object.specs.Kinds.{kind_named};
ghost use Rattle.c6x_asm_object.specs.Sections.{empty_section};
ghost use Rattle.c6x_asm.specs.States.{State, state_of, IsSound, section_index, entered};

use c6x_asm_lines::bytes_at;
use c6x_asm_object::{Object, empty_section, kind_named};
use std::alloc::{AllocError, Global};

#[tactic(auto, using(crate::proofs::Sound::name_of_section))]
fn section_index(text: &[u8], object: &Object, at: u32, len: u32) -> Option<usize>
    requires sound { IsSound text.now object.now }
    ensures is { result ≡ section_index text.now object.now.sections.items (bytes_at text.now at len) }
    ensures there { IfSome result (λ i. i < vec_len object.now.sections) }
{
    object.section_names.find(bytes_at(text, at, len))
}

// Adds a section whose name is not there.
#[tactic(auto, unfolding(c6x_asm_object::specs::Sections::empty_section), using(crate::proofs::Sound::name_of_section, crate::proofs::Sound::section_names_push))]
fn add_section<'a>(
    alloc: Global,
    text: &'a [u8],
    object: &mut Object<'a>,
    at: u32,
    len: u32,
) -> Result<(), AllocError>
    requires sound { IsSound text.now object.old }
    requires absent { section_index text.now object.old.sections.items (bytes_at text.now at len) ≡ None }
    ensures sections { OnOk result (object.new.sections.items ≡ object.old.sections.items ++ empty_section at len (kind_named (bytes_at text.now at len)) ∷ []) }
    ensures symbols { object.new.symbols ≡ object.old.symbols }
    ensures sound { OnOk result (IsSound text.now object.new) }
{
    let name = bytes_at(text, at, len);
    object
        .sections
        .push(empty_section(alloc, at, len, kind_named(name)))
        .map_err(AllocError::from)?;
    object.section_names.add(name)
}

/// Lines go on in the section with this name, which is added if it is new.
#[tactic(auto, unfolding(crate::specs::States::entered))]
pub fn enter<'a>(
    alloc: Global,
    text: &'a [u8],
    object: &mut Object<'a>,
    at: u32,
    len: u32,
) -> Result<(), AllocError>
    requires sound { IsSound text.now object.old }
    ensures is { OnOk result (state_of object.new ≡ entered text.now at len (state_of object.old)) }
    ensures sound { OnOk result (IsSound text.now object.new) }
{
    match section_index(text, object, at, len) {
        Some(i) => {
            object.current = Some(i);
            Ok(())
        }
        None => {
            let i = object.sections.len();
            add_section(alloc, text, object, at, len)?;
            object.current = Some(i);
            Ok(())
        }
    }
}
