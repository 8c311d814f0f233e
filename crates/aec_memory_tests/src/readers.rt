//! Calls that read samples interval by interval.

use crate::trial::{Trial, print_samples, try_calls};
use aec_bits::BitBuf;
use aec_interval::StreamReader;
use aec_params::{Fault, Params, Settings};
use std::alloc::Global;

#[derive(Drop)]
struct Reading<'a> {
    reader: StreamReader<'a>,
    samples: Vec<i64>,
}

impl<'a> Trial for Reading<'a> {
    fn call(&mut self, _number: usize) -> Result<(), Fault> {
        self.reader.next(&mut self.samples)?;
        Ok(())
    }

    fn show<R: Print>(&self, rt: &R) {
        print_samples(rt, &self.samples);
    }
}

const ZEROS: [u8; 6] = [0x00, 0x04, 0x00, 0x10, 0x00, 0x40];

/// Three blocks with the samples 0 to 23, each block without compression.
const PLAIN: [u8; 26] = [
    0xe0, 0x00, 0x20, 0x40, 0x60, 0x80, 0xa0, 0xc0, 0xfc, 0x20, 0x24, 0x28, 0x2c, 0x30, 0x34, 0x38,
    0x3f, 0x88, 0x08, 0x89, 0x09, 0x8a, 0x0a, 0x8b, 0x0b, 0x80,
];

const NEXT: (usize, &str) = (0, "StreamReader::next");

/// Reads the three intervals of 33 zeros, and then the end. Then reads one interval of blocks
/// without compression, and its end.
pub fn try_readers<R: Print + Eprint>(rt: &R, alloc: Global) -> Result<(), Fault> {
    let usual = Params::new(Settings::USUAL)?;
    try_reader(rt, alloc, (usual, &ZEROS, 33), &[NEXT; 4])?;
    let plain = Params::new(Settings {
        preprocess: false,
        interval: 8,
        ..Settings::USUAL
    })?;
    try_reader(rt, alloc, (plain, &PLAIN, 24), &[NEXT; 2])
}

/// Makes the calls on a reader of the stream, which has so many samples.
fn try_reader<R: Print + Eprint>(
    rt: &R,
    alloc: Global,
    (params, stream, count): (Params, &[u8], u64),
    calls: &[(usize, &str)],
) -> Result<(), Fault> {
    let bits = BitBuf::from_bytes(alloc, stream)?;
    let mut reading = Reading {
        reader: StreamReader::new(alloc, params, &bits, Some(count), 1 << 32)?,
        samples: Vec::new(alloc),
    };
    try_calls(rt, calls, &mut reading);
    Ok(())
}
