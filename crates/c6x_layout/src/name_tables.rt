use c6x_base::Bytes;

/// The symbols of a module, its strings, and the dynamic entries that name modules.
#[derive(Debug, Drop)]
pub struct NameTables {
    pub symbols: Vec<u8>,
    pub strings: Bytes,
    pub entries: Vec<u8>,
}
