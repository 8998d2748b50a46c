/// The signs before or behind the base of an address.
#[derive(Clone, Copy)]
pub enum BaseModifier {
    Unmodified,
    Plus,
    Minus,
    PlusPlus,
    MinusMinus,
}
