//! Relocation kinds: their numbers, their values and their fields (SPRAB89, "Relocation").
//!
//! [`set_field`] and [`set_fields`] set values in fields of bytes, one after the other. What stands then is said of the
//! whole list of fields (`specs/FieldBits.antt`): each bit is that of the last field that has it, else the bit that was
//! there.
//!
//! The shift law is here too: one displacement, a multiple of 32, moves all text of a module, and one moves all its
//! data, so a value that was worked out at link addresses is right where the module stands (SPRAB89, "DSBT Model"). It
//! holds of refusals as of values.
#![tactic(auto)]

mod field;
mod field_laws;
mod fields;
mod inputs;
mod kind_row;
mod origin;
mod reloc_error;
mod reloc_kind;
mod setting;
mod shift_laws;
mod table;
mod valuing;

pub use field::Field;
pub use field_laws::{
    patched_bytes_are_one_list, the_last_value_holds, the_last_value_holds_in_the_list,
};
pub use fields::patch_at;
pub use inputs::Inputs;
pub use origin::Origin;
pub use reloc_error::RelocError;
pub use reloc_kind::RelocKind;
pub use setting::set_field;
pub use shift_laws::{fixed_shift, got_shift, packet_shift, table_shift};
pub use table::{is_instruction, kind_of, lowest_bit, number_of, origin_of, size_of, width};
pub use valuing::{patch, value};
