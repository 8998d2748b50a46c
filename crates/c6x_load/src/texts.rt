ghost use Rattle.std.specs.Prelude.{◌≡◌, [], All, length};
ghost use Rattle.c6x_spec.specs.Memory.{CanStart};
ghost use Rattle.c6x_spec.specs.Parts.{AreOn, filled_with};
ghost use Rattle.c6x_module.specs.Valid.{IsValid};
ghost use Rattle.c6x_load.specs.Loaded.{text_part, text_parts};

use crate::range::fill_segment;
use c6x_board::Board;
use c6x_module::Module;
use c6x_modules::Modules;

/// Writes the texts that have a place: the file bytes of each, then zeros. Every other byte is as before.
pub fn load_texts(modules: &Modules, texts: &[Option<u32>], board: &mut Board)
    requires same { length modules.now ≡ length texts.now }
    requires room { AreOn board.old (text_parts modules.now texts.now) }
    ensures { board.new ≡ filled_with (text_parts modules.now texts.now) board.old }
{
    let _ = board.len();
    fill_texts(modules.as_slice(), texts, board);
}

/// The same over a slice.
#[tactic(auto, using(crate::proofs::PlanWalks::texts_more))]
fn fill_texts(modules: &[Module], texts: &[Option<u32>], board: &mut Board)
    requires valid { All IsValid modules.now }
    requires same { length modules.now ≡ length texts.now }
    requires room { AreOn board.old (text_parts modules.now texts.now) }
    requires memory { CanStart board.old.base (length board.old.bytes) }
    ensures { board.new ≡ filled_with (text_parts modules.now texts.now) board.old }
{
    for (k, image) in modules.iter().enumerate() {
        fill_text(image, texts[k], board);
    }
}

/// One text, where it has a place.
fn fill_text(image: &Module, text: Option<u32>, board: &mut Board)
    requires valid { IsValid image.now }
    requires room { AreOn board.old (text_part image.now text []) }
    requires memory { CanStart board.old.base (length board.old.bytes) }
    ensures after { board.new ≡ filled_with (text_part image.now text []) board.old }
    ensures memory { CanStart board.new.base (length board.new.bytes) }
{
    if let Some(at) = text {
        fill_segment(&image.text, at, board);
    }
}
