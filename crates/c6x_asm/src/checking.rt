ghost use Rattle.std.specs.Prelude.{◌≡◌, IfOk, OnOk};
ghost use Rattle.c6x_asm.specs.Packets.{joined_to, bad_from, first_bad};

use crate::closing::is_packet;
use c6x_asm_object::InstrWord;
use std::alloc::{AllocError, Global};

fn join(words: &mut Vec<u32>, instruction: InstrWord) -> Result<(), AllocError>
    ensures { OnOk result (words.new.items ≡ joined_to instruction.chained words.old.items instruction.word) }
{
    if !instruction.chained {
        words.clear();
    }
    words.push(instruction.word).map_err(AllocError::from)
}

/// The first line of the first packet of these instructions that is none. None where all are.
#[tactic(auto, unfolding(crate::specs::Packets::first_bad))]
pub fn first_bad(alloc: Global, instructions: &[InstrWord]) -> Result<Option<u32>, AllocError>
    ensures { IfOk result (λ line. line ≡ first_bad instructions.now) }
{
    let mut line = 0;
    let mut words = Vec::new(alloc);
    for instruction in instructions {
        if !instruction.chained && !is_packet(alloc, words.as_slice())? {
            return Ok(Some(line));
        }
        line = if instruction.chained {
            line
        } else {
            instruction.line
        };
        join(&mut words, *instruction)?;
    }
    if is_packet(alloc, words.as_slice())? {
        Ok(None)
    } else {
        Ok(Some(line))
    }
}
