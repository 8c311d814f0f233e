//! Calls that read stored samples, and calls that code and decode bytes in memory.

use crate::trial::{Trial, print_bytes, print_samples, try_calls};
use aec_engine::{decode_bytes, encode_bytes};
use aec_params::{
    Fault, Limits, Params, Settings, append_samples, collect_samples, first_bad, read_samples,
};
use std::alloc::Global;

// Signed samples of five bits.
#[derive(Drop)]
struct Stored {
    params: Params,
    samples: Vec<i64>,
    alloc: Global,
}

const FOUR: [u8; 4] = [0x1F, 0xFF, 0xF0, 0x0F];

const TWO: [u8; 2] = [0x01, 0xFE];

impl Trial for Stored {
    fn call(&mut self, number: usize) -> Result<(), Fault> {
        if number == 0 {
            self.samples = read_samples(self.alloc, &self.params, &FOUR)?;
            return Ok(());
        }
        if let Some(index) = first_bad(&self.params, &TWO) {
            return Err(Fault::SampleRange { index });
        }
        if number == 1 {
            return append_samples(&self.params, &TWO, &mut self.samples);
        }
        self.samples = collect_samples(self.alloc, &self.params, &TWO)?;
        Ok(())
    }

    fn show<R: Print>(&self, rt: &R) {
        print_samples(rt, &self.samples);
    }
}

fn try_stored<R: Print + Eprint>(rt: &R, alloc: Global) -> Result<(), Fault> {
    let settings = Settings {
        bits: 5,
        signed: true,
        ..Settings::USUAL
    };
    let mut stored = Stored {
        params: Params::new(settings)?,
        samples: Vec::new(alloc),
        alloc,
    };
    try_calls(
        rt,
        &[
            (0, "read_samples"),
            (1, "append_samples"),
            (2, "collect_samples"),
        ],
        &mut stored,
    );
    Ok(())
}

// The bytes of the last call: a code, or what is decoded from it.
#[derive(Drop)]
struct InMemory {
    params: Params,
    limits: Limits,
    bytes: Vec<u8>,
    alloc: Global,
}

const ZEROS: [u8; 17] = [0; 17];

impl Trial for InMemory {
    fn call(&mut self, number: usize) -> Result<(), Fault> {
        let (alloc, limits) = (self.alloc, self.limits);
        self.bytes = match number {
            0 => encode_bytes(alloc, &self.params, limits, &ZEROS)?,
            _ => decode_bytes(alloc, &self.params, limits, Some(17), &self.bytes)?,
        };
        Ok(())
    }

    fn show<R: Print>(&self, rt: &R) {
        print_bytes(rt, &self.bytes);
    }
}

fn try_in_memory<R: Print + Eprint>(rt: &R, alloc: Global) -> Result<(), Fault> {
    let Some(limits) = Limits::new(1 << 32, 1 << 40) else {
        return Ok(());
    };
    let mut coded = InMemory {
        params: Params::new(Settings::USUAL)?,
        limits,
        bytes: Vec::new(alloc),
        alloc,
    };
    try_calls(rt, &[(0, "encode_bytes"), (1, "decode_bytes")], &mut coded);
    Ok(())
}

/// Reads stored samples, and codes and decodes seventeen zeros.
pub fn try_lists<R: Print + Eprint>(rt: &R, alloc: Global) -> Result<(), Fault> {
    try_stored(rt, alloc)?;
    try_in_memory(rt, alloc)
}
