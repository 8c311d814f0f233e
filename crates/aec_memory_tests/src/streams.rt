//! Calls that code and decode whole lists of samples.

use crate::trial::{Trial, print_bits, print_samples, try_calls};
use aec_bits::BitBuf;
use aec_interval::{decode_all, encode_all};
use aec_params::{Fault, Params, Settings};
use std::alloc::Global;

const USUAL: Settings = Settings::USUAL;

const PADDED: Settings = Settings { pad: true, ..USUAL };

const WIDE: Settings = Settings { bits: 12, ..USUAL };

const NARROW: Settings = Settings {
    bits: 1,
    preprocess: false,
    ..USUAL
};

const RESTRICTED: Settings = Settings {
    bits: 2,
    interval: 1,
    restricted: true,
    ..USUAL
};

const SIGNED: Settings = Settings {
    bits: 32,
    signed: true,
    ..USUAL
};

const PLAIN: Settings = Settings {
    interval: 8,
    preprocess: false,
    ..USUAL
};

const LEAST: i64 = -(1 << 31);

const MOST: i64 = (1 << 31) - 1;

const RAMP: [i64; 8] = [0, 1, 2, 3, 4, 5, 6, 7];

const TURNS: [i64; 8] = [LEAST, MOST, LEAST, MOST, LEAST, MOST, LEAST, MOST];

// The settings, and the samples: a number of zeros, and then these.
const CODED: [(Settings, usize, &[i64]); 13] = [
    (USUAL, 0, &[]),
    (USUAL, 8, &[]),
    (USUAL, 0, &RAMP),
    (USUAL, 0, &[7, 7, 7, 7, 7]),
    (USUAL, 17, &[]),
    (PADDED, 17, &[]),
    (LONG, 40, &[]),
    (PLAIN, 48, &[1, 0, 0, 0, 0, 0, 0, 0]),
    (RESTRICTED, 7, &[3]),
    (SIGNED, 0, &TURNS),
    (LONGER, 520, &[]),
    (WIDE, 0, &[1]),
    (WIDE, 0, &[256]),
];

const LONG: Settings = Settings {
    interval: 64,
    ..USUAL
};

const LONGER: Settings = Settings {
    interval: 128,
    ..USUAL
};

#[derive(Drop)]
struct Coding {
    params: Params,
    samples: Vec<i64>,
    bits: BitBuf,
    alloc: Global,
}

impl Trial for Coding {
    fn call(&mut self, _number: usize) -> Result<(), Fault> {
        self.bits = encode_all(self.alloc, &self.params, &self.samples)?;
        Ok(())
    }

    fn show<R: Print>(&self, rt: &R) {
        print_bits(rt, &self.bits);
    }
}

const MANY: u64 = 1 << 32;

const SEVENS: [u8; 2] = [0x00, 0x78];

const ZEROS: [u8; 3] = [0x00, 0x00, 0x80];

// The settings, the bytes, the count and the limit.
const DECODED: [(Settings, &[u8], Option<u64>, u64); 14] = [
    (USUAL, &SEVENS, Some(5), MANY),
    (USUAL, &SEVENS, None, MANY),
    (PADDED, &[0x00, 0x04, 0x00, 0x08], None, MANY),
    (LONG, &ZEROS, Some(40), MANY),
    (LONG, &ZEROS, None, MANY),
    (USUAL, &[0x20, 0x09, 0x24], None, MANY),
    (USUAL, &[0x00], None, MANY),
    (USUAL, &[0x00], Some(8), MANY),
    (NARROW, &[0x27, 0xF8], Some(8), MANY),
    (USUAL, &[0x00, 0x02], None, MANY),
    (LONG, &ZEROS, None, 100),
    (LONG, &ZEROS, Some(40), 39),
    (USUAL, &SEVENS, Some(9), MANY),
    (USUAL, &SEVENS, Some(0), MANY),
];

#[derive(Drop)]
struct Decoding {
    params: Params,
    bits: BitBuf,
    count: Option<u64>,
    limit: u64,
    samples: Vec<i64>,
    alloc: Global,
}

impl Trial for Decoding {
    fn call(&mut self, _number: usize) -> Result<(), Fault> {
        let limit = self.limit.min(MANY);
        self.samples = decode_all(self.alloc, &self.params, &self.bits, self.count, limit)?;
        Ok(())
    }

    fn show<R: Print>(&self, rt: &R) {
        print_samples(rt, &self.samples);
    }
}

fn try_coding<R: Print + Eprint>(
    rt: &R,
    alloc: Global,
    settings: Settings,
    zeros: usize,
    rest: &[i64],
) -> Result<(), Fault> {
    let mut samples = vec![in alloc; 0i64; zeros]?;
    samples.extend_from_slice(rest)?;
    let mut coding = Coding {
        params: Params::new(settings)?,
        samples,
        bits: BitBuf::new(alloc),
        alloc,
    };
    try_calls(rt, &[(0, "encode_all")], &mut coding);
    Ok(())
}

fn try_decoding<R: Print + Eprint>(
    rt: &R,
    alloc: Global,
    settings: Settings,
    bytes: &[u8],
    count: Option<u64>,
    limit: u64,
) -> Result<(), Fault> {
    let mut decoding = Decoding {
        params: Params::new(settings)?,
        bits: BitBuf::from_bytes(alloc, bytes)?,
        count,
        limit,
        samples: Vec::new(alloc),
        alloc,
    };
    try_calls(rt, &[(0, "decode_all")], &mut decoding);
    Ok(())
}

/// Makes the call of each row of both tables.
pub fn try_streams<R: Print + Eprint>(rt: &R, alloc: Global) -> Result<(), Fault> {
    for (settings, zeros, rest) in CODED.iter() {
        try_coding(rt, alloc, *settings, *zeros, rest)?;
    }
    for (settings, bytes, count, limit) in DECODED.iter() {
        try_decoding(rt, alloc, *settings, bytes, *count, *limit)?;
    }
    Ok(())
}
