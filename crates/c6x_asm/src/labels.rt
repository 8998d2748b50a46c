ghost use Rattle.std.specs.Prelude.{◌≡◌, ◌+◌, ◌<◌, IfSome, OnOk, length, vec_len};
ghost use Rattle.c6x_asm.specs.States.{State, state_of, IsSound, section_fault, label_definition, label_fault, labelled};

use crate::symbols::{place, placed_fault};
use c6x_asm_lines::{AsmRule, Word, lowest};
use c6x_asm_object::{AsmSection, Definition, Object};
use std::alloc::AllocError;

fn section_fault(now: Option<usize>) -> Option<AsmRule>
    ensures { result ≡ section_fault now }
{
    match now {
        None => Some(AsmRule::NoSection),
        Some(_) => None,
    }
}

#[tactic(auto, using(std::proofs::lemmas::List::get_or_default))]
fn label_definition(sections: &[AsmSection], now: Option<usize>) -> Definition
    requires { IfSome now (λ i. i < length sections.now) }
    ensures { result ≡ label_definition sections.now now }
{
    match now {
        None => Definition {
            section: 0,
            value: 0,
            size: 0,
        },
        Some(i) => Definition {
            section: i + 1,
            value: sections[i].size,
            size: 0,
        },
    }
}

/// The lower of the rules that a label breaks.
#[tactic(auto, unfolding(crate::specs::States::label_fault))]
pub fn label_fault(text: &[u8], object: &Object, word: Word) -> Option<AsmRule>
    requires { IsSound text.now object.now }
    ensures { result ≡ label_fault text.now (state_of object.now) word }
{
    lowest(
        placed_fault(text, &object.symbols, word),
        section_fault(object.current),
    )
}

/// Puts a label at the end of the section that lines go to.
#[tactic(auto, unfolding(crate::specs::States::labelled))]
pub fn set_label<'a>(text: &'a [u8], object: &mut Object<'a>, word: Word) -> Result<(), AllocError>
    requires { IsSound text.now object.old }
    ensures is { OnOk result (state_of object.new ≡ labelled text.now (state_of object.old) word) }
    ensures sound { OnOk result (IsSound text.now object.new) }
{
    let definition = label_definition(&object.sections, object.current);
    place(text, &mut object.symbols, word, definition)
}
