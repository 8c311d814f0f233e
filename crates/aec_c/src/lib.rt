//! The library for C: coding, decoding, ranges and edits from buffer to buffer; and, with handles,
//! workspaces, coders of samples in pieces, and readers. Each refusal has a number.
#![tactic(auto)]

mod answers;
mod bound;
mod coder_calls;
mod coders;
mod exports;
mod handle;
mod handle_calls;
mod handle_edits;
mod handle_loads;
mod handle_reads;
mod handle_scripts;
mod held_reader;
mod kinds;
pub mod laws;
mod offset_calls;
mod offsets;
mod options;
mod reader_calls;
mod readers;
mod reply;
mod settling;
mod stream_edits;
mod text;
