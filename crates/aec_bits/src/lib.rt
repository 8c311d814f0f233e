//! Bits in order, readers of them, devices, and the interface of an interval coder.
#![tactic(auto)]

mod bit_buf;
mod bit_reader;
mod codec;
mod device;
mod io_device;
pub mod laws;
mod words;
mod writing;

pub use bit_buf::BitBuf;
pub use bit_reader::BitReader;
pub use codec::Codec;
pub use device::{Sink, Source};
pub use io_device::{ReadSource, WriteSink};
pub use writing::put_all;
