use c6x_base::Bytes;
use c6x_elf::abi::{SHT_STRTAB, SHT_SYMTAB};
use c6x_elf::{
    Dyn, NameTable, Rela, Section, Symbol, dynamic, hash, name_at, put_dynamic, put_rela,
    put_symbol, read_relas, rela, symbol, symbols,
};
use std::alloc::{AllocError, Global};

/// A symbol's 16 bytes; its first 12 are those of a relocation entry too, and its last 8 those of a dynamic entry.
const TABLE: [u8; 16] = [
    1, 0, 0, 0, 2, 1, 0, 0, 0xFC, 0xFF, 0xFF, 0xFF, 0x12, 3, 0xF1, 0xFF,
];

const SYMBOL: Symbol = Symbol {
    name: 1,
    value: 258,
    size: 0xFFFF_FFFC,
    info: 0x12,
    other: 3,
    section: 0xFFF1,
};

const RELA: Rela = Rela {
    offset: 1,
    info: 258,
    addend: -4,
};

/// What the last four bytes of the symbol and eight zero bytes say as a relocation entry.
const OTHER: Rela = Rela {
    offset: 0xFFF1_0312,
    info: 0,
    addend: 0,
};

const DYN: Dyn = Dyn {
    tag: 0xFFFF_FFFC,
    value: 0xFFF1_0312,
};

#[test]
fn entries_of_a_table(rt: HostRuntime) {
    assert_eq!(&rt; symbol(&TABLE, 0), Some(SYMBOL));
    assert_eq!(&rt; symbol(&TABLE, 1), None);
    assert_eq!(&rt; rela(&TABLE, 0), Some(RELA));
    assert_eq!(&rt; rela(&TABLE, 1), None);
    assert_eq!(&rt; dynamic(&TABLE, 1), Some(DYN));
    assert_eq!(&rt; dynamic(&TABLE, 2), None);
}

#[test]
fn names_and_hashes(rt: HostRuntime) {
    let table = b"\0ab\0c";
    assert!(&rt; name_at(table, 1).is_some_and(|name| name == b"ab".as_slice()));
    assert!(&rt; name_at(table, 3).is_some_and(|name| name.is_empty()));
    assert!(&rt; name_at(table, 4).is_none());
    assert!(&rt; name_at(table, 6).is_none());
    assert_eq!(&rt; hash(b"a"), 97);
    assert_eq!(&rt; hash(b"ab"), 1650);
    assert_eq!(&rt; hash(b"__c6xabi_DSBT_BASE"), 106902245);
}

/// The three entries one behind the other, in the byte order that is asked for.
fn written(alloc: Global, big: bool) -> Result<Vec<u8>, AllocError> {
    let mut out = Vec::new(alloc);
    put_symbol(&mut out, big, &SYMBOL)?;
    put_rela(&mut out, big, &RELA)?;
    put_dynamic(&mut out, big, &DYN)?;
    Ok(out)
}

#[test]
fn entries_are_put(rt: HostRuntime) -> Result<(), AllocError> {
    let alloc = rt.alloc();
    let little = written(alloc, false)?;
    assert!(&rt;
        little.as_slice()
            == [TABLE.as_slice(), &TABLE[..12], &TABLE[8..]]
                .concat(alloc)?
                .as_slice()
    );
    let big = [
        0, 0, 0, 1, 0, 0, 1, 2, 0xFF, 0xFF, 0xFF, 0xFC, 0x12, 3, 0xFF, 0xF1, 0, 0, 0, 1, 0, 0, 1,
        2, 0xFF, 0xFF, 0xFF, 0xFC, 0xFF, 0xFF, 0xFF, 0xFC, 0xFF, 0xF1, 3, 0x12,
    ];
    assert!(&rt; written(alloc, true)?.as_slice() == big.as_slice());
    Ok(())
}

/// Puts a name of two parts into a short table.
fn add_joined(names: &mut NameTable, front: &[u8], name: &[u8]) -> Result<(), AllocError> {
    if names.len() < 100 {
        names.add_joined(front, name)?;
    }
    Ok(())
}

/// Puts a name into a short table.
fn add(names: &mut NameTable, name: &[u8]) -> Result<(), AllocError> {
    if names.len() < 100 {
        names.add(name)?;
    }
    Ok(())
}

#[test]
fn names_are_put(rt: HostRuntime) -> Result<(), AllocError> {
    let mut names = NameTable::new(rt.alloc())?;
    add(&mut names, b"ab")?;
    add(&mut names, b"")?;
    add_joined(&mut names, b".rela", b".text")?;
    assert!(&rt; names.as_bytes() == b"\0ab\0\0.rela.text\0".as_slice());
    Ok(())
}

/// A section of this type and size with these bytes.
fn section_of(alloc: Global, kind: u32, size: u32, bytes: &[u8]) -> Result<Section, AllocError> {
    Ok(Section {
        name: 0,
        kind,
        flags: 0,
        addr: 0,
        size,
        link: 0,
        info: 0,
        align: 4,
        entsize: 16,
        bytes: Bytes::from_bytes(alloc, bytes)?,
    })
}

// A symbol table and a half entry; the second table of the file counts for nothing.
#[test]
fn lists_of_a_file(rt: HostRuntime) -> Result<(), AllocError> {
    let alloc = rt.alloc();
    let half = [0; 8];
    let table = [TABLE.as_slice(), &half].concat(alloc)?;
    assert!(&rt; read_relas(alloc, false, &table)?.as_slice() == [RELA, OTHER].as_slice());
    let sections = vec![in alloc;
        section_of(alloc, SHT_STRTAB, 1, b"\0")?,
        section_of(alloc, SHT_SYMTAB, 24, &table)?,
        section_of(alloc, SHT_SYMTAB, 0, &[])?,
    ]?;
    assert!(&rt; symbols(alloc, false, &sections)?.as_slice() == [SYMBOL].as_slice());
    Ok(())
}
