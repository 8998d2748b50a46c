ghost use Rattle.std.specs.Prelude.{◌≡◌};
ghost use Rattle.c6x_elf_headers.specs.Names.{hash_of};

/// The gABI's hash of a name (chapter 5, "Hash Table").
pub fn hash(name: &[u8]) -> u32
    ensures { result ≡ hash_of 0 name.now }
{
    let mut h: u32 = 0;
    for c in name {
        h = h.wrapping_mul(16).wrapping_add(u32::from(*c));
        let high = h & 0xF000_0000;
        h = (h ^ (high >> 24)) & !high;
    }
    h
}
