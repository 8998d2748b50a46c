//! Instructions as text, which the assembler turns into their words again, and the list of the words of a section.
//!
//! A line has the mnemonics, the units and the shapes of operands that the assembler reads. Laws say that what is shown
//! is read again: the bytes of a shown line are cut into what it was written of, so is a text of many lines, and a
//! section directive with a shown line is assembled to the word that the line was shown for.
#![tactic(auto)]

mod conditions;
mod listing;
mod operands;
mod showing;
mod shown_laws;
mod spelling;
mod text_laws;
mod units;
mod writing;

pub use listing::list;
pub use showing::show;
pub use shown_laws::{lines_are_read, pieces_are_read};
pub use text_laws::texts_are_read;
