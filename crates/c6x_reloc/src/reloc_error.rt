use thiserror::Error;

/// Why a relocation has no value, numbered V1 to V4 in this order.
#[derive(Clone, Copy, Debug, PartialEq, Eq, Error)]
pub enum RelocError {
    /// No kind with a value here has this number.
    #[error("Kind")]
    Kind,
    /// The value does not fit its field.
    #[error("Range")]
    Range,
    /// The value is no multiple of what the kind divides by.
    #[error("Align")]
    Align,
    /// A kind that names a GOT word has an addend.
    #[error("Addend")]
    Addend,
}
