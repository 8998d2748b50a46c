ghost use Rattle.std.specs.Prelude.{◌≡◌, ◌+◌, ◌-◌, ◌<◌, ◌↔◌, ◌%◌, ℕ, IsTrue, length, slice_index, take};
ghost use Rattle.c6x_packet.specs.Packets.{IsChain};

/// Whether the words are a chain: one to eight words, each but the last with its p bit set, and the
/// last without it unless there are eight.
pub fn is_chain(words: &[u32]) -> bool
    ensures { IsTrue result ↔ IsChain words.now }
{
    if words.is_empty() || 8 < words.len() {
        return false;
    }
    let last = words.len() - 1;
    if last < 7 && words[last] % 2 == 1 {
        return false;
    }
    are_chained(&words[..last])
}

/// Whether every word has its p bit set.
fn are_chained(words: &[u32]) -> bool
    ensures { IsTrue result ↔ ((k : ℕ) → k < length words.now → slice_index words.now k % 2 ≡ 1) }
{
    words.iter().all(|word| word % 2 == 1)
}
