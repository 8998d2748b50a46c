ghost use Rattle.std.specs.Prelude.{◌≡◌, ◌<◌, ◌≤◌, length, take, Ok, All, IfSome};
ghost use Rattle.c6x_encoding.specs.Spelling.{IsValid};
ghost use Rattle.c6x_packet.specs.Packets.{split_of};
ghost use Rattle.c6x_exec.specs.Known.{IsKnown};

use c6x_isa::{Cond, Instr, Op};
use std::marker::Model;

/// Words that were split before, and the packet that they spell.
#[derive(Clone, Copy)]
pub(crate) struct Known {
    words: [u32; 8],
    instrs: [Instr; 8],
    count: usize,
}

/// How many packets are kept.
const PLACES: usize = 64;

/// Packets that were split before, each at the place of its address, so that a loop is split once.
///
/// A packet is found by its words and not by its address alone: what was stored over it since is no longer found.
#[derive(Drop)]
pub(crate) struct KnownPackets {
    places: [Known; 64],
}

/// What is kept changes no answer: all are seen alike.
impl Model for KnownPackets {
    ghost use Rattle.std.specs.Prelude.{◌≡◌, length, All};
    ghost use Rattle.c6x_exec.specs.Known.{IsKnown};

    ghost Value = { Unit {0} };

    ghost view = { λ _. tt };

    ghost invariant = { λ k. (length k.places ≡ 64) × All IsKnown k.places };
}

/// No words, which spell the packet of no instructions.
const NOTHING: Known = Known {
    words: [0; 8],
    instrs: [Instr {
        condition: Cond::Always,
        op: Op::Nop { cycles: 1 },
        chained: false,
    }; 8],
    count: 0,
};

/// The place of the packet at an address. Those of one loop are apart from one another.
fn place_of(at: u32) -> usize
    ensures { result < 64 }
{
    (at / 4) as usize % PLACES
}

/// Puts values in place of the first ones.
fn put_front<T: Copy>(all: &mut [T], values: &[T])
    requires { length values.now ≤ length all.old }
    ensures front { take (length values.now) all.new ≡ values.now }
    ensures size { length all.new ≡ length all.old }
{
    all[..values.len()].copy_from_slice(values);
}

/// Words and the packet that they spell, to be kept.
fn entry_of(words: &[u32], instrs: &[Instr]) -> Known
    requires few { length words.now ≤ 8 }
    requires same { length instrs.now ≡ length words.now }
    requires split { split_of words.now ≡ Ok instrs.now }
    requires valid { All IsValid instrs.now }
    ensures { IsKnown result }
{
    let mut entry = NOTHING;
    put_front(&mut entry.words, words);
    put_front(&mut entry.instrs, instrs);
    entry.count = words.len();
    entry
}

impl KnownPackets {
    /// None yet.
    pub(crate) fn new() -> KnownPackets {
        KnownPackets {
            places: [NOTHING; 64],
        }
    }

    /// The packet that the words at an address spell, where it is known.
    pub(crate) fn find(&self, at: u32, words: &[u32]) -> Option<&[Instr]>
        ensures few { IfSome result (λ instrs. length instrs.now ≤ 8) }
        ensures split { IfSome result (λ instrs. split_of words.now ≡ Ok instrs.now) }
        ensures valid { IfSome result (λ instrs. All IsValid instrs.now) }
    {
        let known = &self.places[place_of(at)];
        if &known.words[..known.count] == words {
            Some(&known.instrs[..known.count])
        } else {
            None
        }
    }

    /// Keeps the packet that the words at an address spell, in the place of another one.
    pub(crate) fn add(&mut self, at: u32, words: &[u32], instrs: &[Instr])
        requires few { length words.now ≤ 8 }
        requires same { length instrs.now ≡ length words.now }
        requires split { split_of words.now ≡ Ok instrs.now }
        requires valid { All IsValid instrs.now }
    {
        self.places[place_of(at)] = entry_of(words, instrs);
    }
}
