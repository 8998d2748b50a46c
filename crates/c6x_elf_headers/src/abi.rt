//! The numbers of the gABI (chapters 4 and 5) and of SPRAB89 under their names there.

// File types: `e_type` (gABI chapter 4, "ELF Header").

/// A relocatable file.
pub const ET_REL: u16 = 1;
/// An executable.
pub const ET_EXEC: u16 = 2;
/// A shared object.
pub const ET_DYN: u16 = 3;

// The machine, the version and the identification (gABI chapter 4, "ELF Header" and "ELF Identification").

/// `e_machine` of the TI C6000.
pub const EM_TI_C6000: u16 = 140;
/// `e_version` and `e_ident[EI_VERSION]`.
pub const EV_CURRENT: u32 = 1;
/// `e_ident[EI_CLASS]` of files of 32 bits.
pub const ELFCLASS32: u8 = 1;
/// `e_ident[EI_DATA]`: the lowest byte of a number comes first.
pub const ELFDATA2LSB: u8 = 1;
/// `e_ident[EI_DATA]`: the highest byte of a number comes first.
pub const ELFDATA2MSB: u8 = 2;

// Section types: `sh_type` (gABI chapter 4, "Section Header").

/// No section: that of the section with number 0.
pub const SHT_NULL: u32 = 0;
/// What a program has.
pub const SHT_PROGBITS: u32 = 1;
/// A symbol table.
pub const SHT_SYMTAB: u32 = 2;
/// A string table.
pub const SHT_STRTAB: u32 = 3;
/// Relocation entries with addends.
pub const SHT_RELA: u32 = 4;
/// A hash table of symbols.
pub const SHT_HASH: u32 = 5;
/// Dynamic entries.
pub const SHT_DYNAMIC: u32 = 6;
/// Zeros, with no bytes in the file.
pub const SHT_NOBITS: u32 = 8;
/// Relocation entries without addends.
pub const SHT_REL: u32 = 9;
/// A symbol table for dynamic linking.
pub const SHT_DYNSYM: u32 = 11;

// Section flags: bits of `sh_flags`.

/// The section may be written.
pub const SHF_WRITE: u32 = 1;
/// The section takes memory.
pub const SHF_ALLOC: u32 = 2;
/// The section has instructions.
pub const SHF_EXECINSTR: u32 = 4;

// Section numbers: `st_shndx` (gABI chapter 4, "Special Section Indexes").

/// No section: the symbol is not defined here.
pub const SHN_UNDEF: u16 = 0;
/// The first of the numbers that are no section's.
pub const SHN_LORESERVE: u16 = 0xFF00;
/// A common near the data page pointer (SPRAB89).
pub const SHN_TIC6X_SCOMMON: u16 = 0xFF00;
/// The symbol's value is absolute.
pub const SHN_ABS: u16 = 0xFFF1;
/// A common.
pub const SHN_COMMON: u16 = 0xFFF2;

// Bindings: the high four bits of `st_info` (gABI chapter 4, "Symbol Table").

/// The symbol is seen in its own file alone.
pub const STB_LOCAL: u8 = 0;
/// The symbol is seen by all files.
pub const STB_GLOBAL: u8 = 1;
/// As GLOBAL, with less right to define the name.
pub const STB_WEAK: u8 = 2;

// Symbol types: the low four bits of `st_info`.

/// No type is said.
pub const STT_NOTYPE: u8 = 0;
/// Data.
pub const STT_OBJECT: u8 = 1;
/// Code.
pub const STT_FUNC: u8 = 2;
/// A section.
pub const STT_SECTION: u8 = 3;
/// The name of a source file.
pub const STT_FILE: u8 = 4;

// Visibilities: the low two bits of `st_other`.

/// As the binding says.
pub const STV_DEFAULT: u8 = 0;
/// Hidden, in a sense of the processor's own.
pub const STV_INTERNAL: u8 = 1;
/// Not seen by other modules.
pub const STV_HIDDEN: u8 = 2;
/// Seen by other modules, which do not redefine it for its own.
pub const STV_PROTECTED: u8 = 3;

// Segment types: `p_type` (gABI chapter 5, "Program Header").

/// A segment that is loaded.
pub const PT_LOAD: u32 = 1;
/// Dynamic entries.
pub const PT_DYNAMIC: u32 = 2;

// Segment flags: bits of `p_flags`.

/// The segment may be run.
pub const PF_X: u32 = 1;
/// The segment may be written.
pub const PF_W: u32 = 2;
/// The segment may be read.
pub const PF_R: u32 = 4;

// Dynamic tags: `d_tag` (gABI chapter 5, "Dynamic Section").

/// The end of the entries.
pub const DT_NULL: u32 = 0;
/// The offset of the name of a module that is needed.
pub const DT_NEEDED: u32 = 1;
/// The bytes of the relocation entries of DT_JMPREL.
pub const DT_PLTRELSZ: u32 = 2;
/// An address of the processor's own use.
pub const DT_PLTGOT: u32 = 3;
/// The address of the hash table.
pub const DT_HASH: u32 = 4;
/// The address of the string table.
pub const DT_STRTAB: u32 = 5;
/// The address of the symbol table.
pub const DT_SYMTAB: u32 = 6;
/// The address of the relocation entries.
pub const DT_RELA: u32 = 7;
/// The bytes of the relocation entries.
pub const DT_RELASZ: u32 = 8;
/// The bytes of one relocation entry.
pub const DT_RELAENT: u32 = 9;
/// The bytes of the string table.
pub const DT_STRSZ: u32 = 10;
/// The bytes of one symbol.
pub const DT_SYMENT: u32 = 11;
/// The address of code that runs first.
pub const DT_INIT: u32 = 12;
/// The address of code that runs last.
pub const DT_FINI: u32 = 13;
/// The offset of the module's own name.
pub const DT_SONAME: u32 = 14;
/// The address of relocation entries without addends.
pub const DT_REL: u32 = 17;
/// The form of the entries of DT_JMPREL: DT_RELA or DT_REL.
pub const DT_PLTREL: u32 = 20;
/// Relocation entries may change a segment that may not be written.
pub const DT_TEXTREL: u32 = 22;
/// The address of the relocation entries of procedure calls.
pub const DT_JMPREL: u32 = 23;
/// The address of addresses of code that runs first.
pub const DT_INIT_ARRAY: u32 = 25;
/// The address of addresses of code that runs last.
pub const DT_FINI_ARRAY: u32 = 26;
/// The address of addresses of code that runs before all else.
pub const DT_PREINIT_ARRAY: u32 = 32;

// Those of the DSBT model (SPRAB89, "Dynamic Linking").

/// The address of the data segment base table.
pub const DT_DSBT_BASE: u32 = 0x7000_0000;
/// The words of the data segment base table.
pub const DT_DSBT_SIZE: u32 = 0x7000_0001;
/// The module's place in the table.
pub const DT_DSBT_INDEX: u32 = 0x7000_0003;
