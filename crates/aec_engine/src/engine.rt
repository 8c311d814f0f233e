//! The engines: contracts state what they write as a function of the inputs.

mod at_once;
mod bit_intake;
mod coding;
mod decoding;
mod editing;
mod from_offsets;
mod intake;
mod into_buffers;
mod loading;
mod ranging;
mod terms;
mod two_readings;

pub use coding::encode;
pub use decoding::decode;
pub use editing::{carry_out, edit, edit_at_once, edit_over};
pub use from_offsets::{decode_at_into, offsets_into};
pub use into_buffers::{decode_into, range_into};
pub use ranging::range;
