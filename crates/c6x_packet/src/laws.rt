ghost use Rattle.std.specs.Prelude.{◌≡◌, ◌↔◌, ℕ, List, Result, Ok, Err};
ghost use Rattle.c6x_encoding.specs.declared.instr.Instr.{Instr};
ghost use Rattle.c6x_packet.specs.declared.error.PacketError.{PacketError};
ghost use Rattle.c6x_packet.specs.Packets.{IsChain, IsFirstBroken, IsPacketOf, split_of};

/// The split of a chain of words is the packet that they spell, or the first rule that they break.
pub fn split_is_packet_or_first_broken()
    ensures packet { (words : List ℕ) → IsChain words → (instrs : List Instr) → (split_of words ≡ Ok instrs) ↔ IsPacketOf words instrs }
    ensures broken { (words : List ℕ) (e : PacketError) → (split_of words ≡ Err e) ↔ IsFirstBroken words e }
{}
