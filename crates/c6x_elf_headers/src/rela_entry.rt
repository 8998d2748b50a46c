/// An entry of 12 bytes of a RELA table (gABI, chapter 4, "Relocation"): the place, the symbol's
/// number times 256 plus the kind, and the addend.
#[derive(Clone, Copy, Debug, PartialEq, Eq)]
pub struct Rela {
    pub offset: u32,
    pub info: u32,
    pub addend: i32,
}

impl Rela {
    ghost use Rattle.std.specs.Prelude.{◌≡◌, ◌^◌, ◌<◌};
    ghost use Rattle.c6x_elf_headers.specs.Attributes.{rela_info, rela_kind, rela_symbol};

    /// The entry of a symbol's number and a kind.
    pub fn new(offset: u32, symbol: u32, kind: u8, addend: i32) -> Rela
        requires { symbol < 2 ^ 24 }
        ensures offset { result.offset ≡ offset }
        ensures info { result.info ≡ rela_info symbol kind }
        ensures addend { result.addend ≡ addend }
        ensures symbol { rela_symbol result ≡ symbol }
        ensures kind { rela_kind result ≡ kind }
    {
        Rela {
            offset,
            info: symbol * 256 + u32::from(kind),
            addend,
        }
    }

    /// The number of the symbol (gABI chapter 4, "Relocation", `ELF32_R_SYM`).
    pub fn symbol(&self) -> u32
        ensures { result ≡ rela_symbol self.now }
    {
        self.info / 256
    }

    /// The kind's number (`ELF32_R_TYPE`).
    pub fn kind(&self) -> u8
        ensures { result ≡ rela_kind self.now }
    {
        (self.info % 256) as u8
    }
}
