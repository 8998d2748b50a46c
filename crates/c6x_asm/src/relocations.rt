ghost use Rattle.std.specs.Prelude.{◌≡◌, IfOk, OnOk};
ghost use Rattle.c6x_asm_object.specs.Named.{AreNamed};
ghost use Rattle.c6x_asm.specs.States.{named_entry, relocated};

use c6x_asm_lines::Relocation;
use c6x_asm_object::{RelocEntry, Symbols, intern};
use std::alloc::AllocError;

/// The entry of a relocation at this offset. Its symbol is added if it is new.
#[tactic(auto, unfolding(crate::specs::States::relocated))]
pub fn relocate<'a>(
    text: &'a [u8],
    symbols: &mut Symbols<'a>,
    offset: u32,
    relocation: Option<Relocation>,
) -> Result<Option<RelocEntry>, AllocError>
    requires named { AreNamed text.now symbols.old }
    ensures is { IfOk result (λ entry. relocated text.now symbols.old.list.items offset relocation ≡ (symbols.new.list.items, entry)) }
    ensures named { OnOk result (AreNamed text.now symbols.new) }
{
    match relocation {
        None => Ok(None),
        Some(r) => match r.symbol {
            None => Ok(Some(RelocEntry {
                offset,
                kind: r.kind,
                symbol: None,
                addend: r.addend,
            })),
            Some(word) => {
                let i = intern(text, symbols, word)?;
                Ok(Some(RelocEntry {
                    offset,
                    kind: r.kind,
                    symbol: Some(i),
                    addend: r.addend,
                }))
            }
        },
    }
}
