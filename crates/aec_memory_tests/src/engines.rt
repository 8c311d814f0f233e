//! Calls of the engines, from bytes in memory into a sink that has room for all.

use crate::trial::{Trial, print_bytes, try_calls};
use aec_bits::{ReadSource, Sink, WriteSink};
use aec_engine::{EditFault, decode, edit, encode, range};
use aec_params::{Fault, Limits, Params, Settings};
use std::alloc::Global;
use std::mem;

#[derive(Drop)]
struct Engines {
    params: Params,
    plain: Params,
    limits: Limits,
    written: Vec<u8>,
    begins: u64,
    alloc: Global,
}

const RAMP: [u8; 8] = [0, 1, 2, 3, 4, 5, 6, 7];

const RAMP_CODED: [u8; 4] = [0x20, 0x09, 0x24, 0x92];

const RAMP_PLAIN: [u8; 9] = [0xE0, 0x00, 0x20, 0x40, 0x60, 0x80, 0xA0, 0xC0, 0xE0];

const ZEROS: [u8; 6] = [0x00, 0x04, 0x00, 0x10, 0x00, 0x40];

fn given(number: usize) -> &'static [u8] {
    match number {
        0 => &RAMP,
        1 | 2 => &RAMP_CODED,
        3 => &RAMP_PLAIN,
        _ => &ZEROS,
    }
}

// Returns the fault of an edit, without its line.
fn plainly(fault: EditFault) -> Fault {
    match fault {
        EditFault::Plain(fault) | EditFault::Line { fault, .. } => fault,
    }
}

impl Trial for Engines {
    fn call(&mut self, number: usize) -> Result<(), Fault> {
        let (alloc, limits) = (self.alloc, self.limits);
        let mut written = mem::replace(&mut self.written, Vec::new(alloc));
        written.clear();
        let mut source = ReadSource::new(given(number));
        let mut sink = WriteSink::new(written);
        let answer = match number {
            0 => encode(alloc, &self.params, limits, &mut source, &mut sink),
            1 => decode(alloc, &self.params, limits, None, &mut source, &mut sink),
            2 => range(
                alloc,
                &self.params,
                limits,
                None,
                2,
                3,
                &mut source,
                &mut sink,
            ),
            3 => decode(alloc, &self.plain, limits, None, &mut source, &mut sink),
            _ => {
                let text: &[u8] = b"overwrite 20 1";
                let mut script = ReadSource::new(text);
                edit(
                    alloc,
                    &self.params,
                    limits,
                    None,
                    &mut script,
                    &mut source,
                    &mut sink,
                )
                .map_err(plainly)
            }
        };
        self.begins = sink.begins();
        self.written = sink.into_inner();
        answer
    }

    fn show<R: Print>(&self, rt: &R) {
        print_bytes(rt, &self.written);
        let _ = print!(rt; " (begun {})", self.begins);
    }
}

/// Calls each engine, each with an empty sink.
pub fn try_engines<R: Print + Eprint>(rt: &R, alloc: Global) -> Result<(), Fault> {
    let params = Params::new(Settings::USUAL)?;
    let plain = Params::new(Settings {
        preprocess: false,
        ..Settings::USUAL
    })?;
    let Some(limits) = Limits::new(1 << 32, 1 << 40) else {
        return Ok(());
    };
    for call in [
        (0, "encode"),
        (1, "decode"),
        (2, "range"),
        (3, "decode"),
        (4, "edit"),
    ] {
        let mut engines = Engines {
            params,
            plain,
            limits,
            written: Vec::with_capacity(alloc, 64)?,
            begins: 0,
            alloc,
        };
        try_calls(rt, &[call], &mut engines);
    }
    Ok(())
}
