//! Calls that decode bytes into a buffer.

use crate::trial::{Trial, print_bytes, try_calls};
use aec_engine::{decode_into, range_into};
use aec_params::{Fault, Limits, Params, Settings};
use std::alloc::Global;
use std::mem;

// A buffer of ten bytes, how many of them a call may fill, and the number of bytes of its result.
#[derive(Drop)]
struct Buffers {
    params: Params,
    limits: Limits,
    out: Vec<u8>,
    room: usize,
    len: u64,
    alloc: Global,
}

const CODED: [u8; 4] = [0x20, 0x09, 0x24, 0x92];

impl Trial for Buffers {
    fn call(&mut self, number: usize) -> Result<(), Fault> {
        let (alloc, params, limits) = (self.alloc, self.params, self.limits);
        let mut all = mem::replace(&mut self.out, Vec::new(alloc));
        let room = self.room.min(all.len());
        let out = &mut all[..room];
        let answer = match number {
            0 => decode_into(alloc, &params, limits, Some(8), &CODED, out),
            1 => decode_into(alloc, &params, limits, Some(9), &CODED, out),
            2 => range_into(alloc, &params, limits, None, 2, 3, &CODED, out),
            _ => range_into(alloc, &params, limits, None, 6, 3, &CODED, out),
        };
        self.out = all;
        self.len = answer?;
        Ok(())
    }

    fn show<R: Print>(&self, rt: &R) {
        print_bytes(rt, &self.out);
        let _ = print!(rt; " (answer of {})", self.len);
    }
}

// A call, and the room for its result.
const CALLS: [(usize, &str, usize); 6] = [
    (0, "decode_into", 9),
    (0, "decode_into", 7),
    (1, "decode_into", 9),
    (2, "range_into", 9),
    (2, "range_into", 2),
    (3, "range_into", 9),
];

/// Makes each call of the table, with a buffer of its own.
pub fn try_buffers<R: Print + Eprint>(rt: &R, alloc: Global) -> Result<(), Fault> {
    let params = Params::new(Settings::USUAL)?;
    let Some(limits) = Limits::new(1 << 32, 1 << 40) else {
        return Ok(());
    };
    for (number, name, room) in CALLS.iter() {
        let mut buffers = Buffers {
            params,
            limits,
            out: vec![in alloc; 0xEEu8; 10]?,
            room: *room,
            len: 0,
            alloc,
        };
        try_calls(rt, &[(*number, *name)], &mut buffers);
    }
    Ok(())
}
