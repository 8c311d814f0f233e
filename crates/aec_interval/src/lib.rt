//! The coder of reference sample intervals, the reading of whole streams, and the laws that connect
//! them.
//!
//! `encode_all` and `decode_all` take whole lists; `StreamCoder` takes samples in pieces;
//! `StreamReader` returns them by intervals; `interval_offsets` finds the bits where intervals
//! begin, and `decode_at` decodes from such a bit on; `AecCodec` codes single intervals, for
//! workspaces.
#![tactic(auto)]

mod block_sizes;
mod codec;
mod interval;
pub mod laws;
mod offsets;
mod reached_place;
mod reading;
mod segment;
mod stream_coder;
mod stream_reader;
mod whole;

pub use codec::AecCodec;
pub use offsets::interval_offsets;
pub use reached_place::ReachedPlace;
pub use reading::whole::{decode_all, decode_at};
pub use stream_coder::StreamCoder;
pub use stream_reader::StreamReader;
pub use whole::encode_all;
