use crate::relocation::Relocation;

/// Where a load or a store is, as its word says it.
#[derive(Clone, Copy)]
pub enum Place {
    Short {
        mode: u8,
        offset: u8,
        base: u8,
    },
    Long {
        base15: bool,
        offset: u16,
        relocation: Option<Relocation>,
    },
}
