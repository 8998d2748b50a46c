ghost use Rattle.std.specs.Prelude.{◌≡◌, ◌*◌, ◌+◌, ◌++◌, length, OnOk, vec_len};
ghost use Rattle.c6x_elf_headers.specs.Rows.{AreHalves, AreWords, half_bytes, half_row, word_bytes, word_row};

use byteorder::{BigEndian, ByteOrder, LittleEndian};
use std::alloc::AllocError;

/// Puts numbers of four bytes one behind the other, the highest byte first where `big` is true.
#[tactic(auto, using(crate::proofs::NumberRows::word_row_more, crate::proofs::NumberRows::are_words))]
pub fn put_words(out: &mut Vec<u8>, big: bool, words: &[u32]) -> Result<(), AllocError>
    ensures row { OnOk result (out.new.items ≡ out.old.items ++ word_row big words.now) }
    ensures end { OnOk result (vec_len out.new ≡ vec_len out.old + 4 * length words.now) }
    ensures fit { AreWords words.now }
{
    for word in words {
        put_word(out, big, *word)?;
    }
    Ok(())
}

/// Puts numbers of two bytes one behind the other.
#[tactic(auto, using(crate::proofs::NumberRows::half_row_more, crate::proofs::NumberRows::are_halves))]
pub fn put_halves(out: &mut Vec<u8>, big: bool, halves: &[u16]) -> Result<(), AllocError>
    ensures row { OnOk result (out.new.items ≡ out.old.items ++ half_row big halves.now) }
    ensures end { OnOk result (vec_len out.new ≡ vec_len out.old + 2 * length halves.now) }
    ensures fit { AreHalves halves.now }
{
    for half in halves {
        put_half(out, big, *half)?;
    }
    Ok(())
}

/// Puts a number of four bytes.
#[tactic(auto, unfolding(crate::specs::Rows::word_bytes))]
fn put_word(out: &mut Vec<u8>, big: bool, word: u32) -> Result<(), AllocError>
    ensures bytes { OnOk result (out.new.items ≡ out.old.items ++ word_bytes big word) }
    ensures end { OnOk result (vec_len out.new ≡ vec_len out.old + 4) }
{
    let mut bytes = [0; 4];
    if big {
        BigEndian::write_u32(&mut bytes, word);
    } else {
        LittleEndian::write_u32(&mut bytes, word);
    }
    out.extend_from_slice(&bytes)?;
    Ok(())
}

/// Puts a number of two bytes.
#[tactic(auto, unfolding(crate::specs::Rows::half_bytes))]
fn put_half(out: &mut Vec<u8>, big: bool, half: u16) -> Result<(), AllocError>
    ensures bytes { OnOk result (out.new.items ≡ out.old.items ++ half_bytes big half) }
    ensures end { OnOk result (vec_len out.new ≡ vec_len out.old + 2) }
{
    let mut bytes = [0; 2];
    if big {
        BigEndian::write_u16(&mut bytes, half);
    } else {
        LittleEndian::write_u16(&mut bytes, half);
    }
    out.extend_from_slice(&bytes)?;
    Ok(())
}
