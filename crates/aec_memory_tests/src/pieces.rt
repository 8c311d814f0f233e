//! Calls that feed samples to a `StreamCoder` in pieces.

use crate::trial::{Trial, print_bits, try_calls};
use aec_bits::BitBuf;
use aec_interval::StreamCoder;
use aec_params::{Fault, Params, Settings};
use std::alloc::Global;

// All bytes that are fed, a coder of at most 17 samples (`None` after it has finished), and the
// bits so far.
#[derive(Drop)]
struct Pieces {
    all: &'static [u8],
    coder: Option<StreamCoder>,
    bits: BitBuf,
    params: Params,
    alloc: Global,
}

impl Pieces {
    fn new(alloc: Global, params: Params, all: &'static [u8]) -> Pieces {
        Pieces {
            all,
            coder: Some(StreamCoder::new(alloc, params, 17)),
            bits: BitBuf::new(alloc),
            params,
            alloc,
        }
    }

    fn feed(&mut self, piece: &[u8]) -> Result<(), Fault> {
        match &mut self.coder {
            Some(coder) => coder.feed(piece, &mut self.bits),
            None => Ok(()),
        }
    }

    // Finishes the coder. If it has already finished, all bytes are first fed to a new one.
    fn finish(&mut self) -> Result<(), Fault> {
        if self.coder.is_none() {
            *self = Pieces::new(self.alloc, self.params, self.all);
            self.feed(self.all)?;
        }
        match self.coder.take() {
            Some(coder) => coder.finish(&mut self.bits),
            None => Ok(()),
        }
    }
}

impl Trial for Pieces {
    fn call(&mut self, number: usize) -> Result<(), Fault> {
        match number {
            0 => self.feed(&[0; 5]),
            1 => self.feed(&[0; 12]),
            _ => self.finish(),
        }
    }

    fn show<R: Print>(&self, rt: &R) {
        print_bits(rt, &self.bits);
        if let Some(coder) = &self.coder {
            let _ = print!(rt; ", held {}", coder.held());
        }
    }
}

const CALLS: [(usize, &str); 3] = [
    (0, "StreamCoder::feed"),
    (1, "StreamCoder::feed"),
    (2, "StreamCoder::finish"),
];

/// Feeds seventeen zeros in two pieces, and five in one.
pub fn try_pieces<R: Print + Eprint>(rt: &R, alloc: Global) -> Result<(), Fault> {
    let params = Params::new(Settings::USUAL)?;
    try_calls(rt, &CALLS, &mut Pieces::new(alloc, params, &[0; 17]));
    let calls = [CALLS[0], CALLS[2]];
    try_calls(rt, &calls, &mut Pieces::new(alloc, params, &[0; 5]));
    Ok(())
}
