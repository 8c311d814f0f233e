//! What the program does with bytes, without its command line and its files: the engines over any
//! source and sink, coding and decoding in memory, edits that begin with no samples, and scripts of
//! edits.
//!
//! From source to sink: `encode`, `decode`, `range`, `edit`. From slice to vector: `encode_bytes`,
//! `decode_bytes`, `range_bytes`. Into a buffer: `encode_into`, `decode_into`, `range_into`;
//! `offsets_into` finds the bits where intervals begin, and `decode_at_into` decodes from such a
//! bit on.
#![tactic(auto)]

mod bytes_range;
mod coded_bytes;
mod edited_streams;
mod engine;
mod in_memory;
pub mod laws;
mod numerals;
mod script_edits;
mod script_lines;
mod script_plan;
mod script_reading;
mod script_words;
mod scripts;

pub use bytes_range::range_bytes;
pub use coded_bytes::{encode_bytes, encode_into};
pub use edited_streams::{Decoded, decode_edited};
pub use engine::{
    carry_out, decode, decode_at_into, decode_into, edit, edit_at_once, edit_over, encode,
    offsets_into, range, range_into,
};
pub use in_memory::decode_bytes;
pub use numerals::parse_range;
pub use script_reading::script;
pub use scripts::{EditFault, Script};
