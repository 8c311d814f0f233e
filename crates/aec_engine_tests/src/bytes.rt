//! Coding, decoding and ranges of bytes in memory.

use crate::asserts::same_at;
use aec_engine::{decode_bytes, encode_bytes, range_bytes};
use aec_params::{Fault, Limits, Params, Settings};
use std::alloc::Global;
use std::test::Fail;

/// A call, with what it is given beside bytes and limits.
#[derive(Clone, Copy, Debug)]
enum Call {
    Encode,
    Decode { count: Option<u64> },
    Range { first: u64, len: u64 },
}

fn made(
    alloc: Global,
    params: &Params,
    limits: Limits,
    call: Call,
    bytes: &[u8],
) -> Result<Vec<u8>, Fault> {
    match call {
        Call::Encode => encode_bytes(alloc, params, limits, bytes),
        Call::Decode { count } => decode_bytes(alloc, params, limits, count, bytes),
        Call::Range { first, len } => range_bytes(alloc, params, limits, None, first, len, bytes),
    }
}

// The bytes 0 to 7, and their code, from the examples of FORMAT.md.
const RAMP: &[u8] = &[0, 1, 2, 3, 4, 5, 6, 7];

const RAMP_CODED: &[u8] = &[0x20, 0x09, 0x24, 0x92];

const ALL: Call = Call::Decode { count: None };

const OUTSIDE: Result<&[u8], Fault> = Err(Fault::OutOfRange { count: 8 });

// A row: bits per sample; the limits of samples and of bytes; a call and its bytes; its result.
const ROWS: [(u32, (u64, u64), Call, &[u8], Result<&[u8], Fault>); 17] = [
    (8, (8, 8), Call::Encode, RAMP, Ok(RAMP_CODED)),
    (8, (8, 8), ALL, RAMP_CODED, Ok(RAMP)),
    (
        8,
        (8, 8),
        Call::Decode { count: Some(8) },
        RAMP_CODED,
        Ok(RAMP),
    ),
    (
        8,
        (8, 8),
        Call::Decode { count: Some(3) },
        RAMP_CODED,
        Ok(&[0, 1, 2]),
    ),
    (
        8,
        (8, 8),
        Call::Decode { count: Some(0) },
        RAMP_CODED,
        Ok(&[]),
    ),
    (
        5,
        (2, 3),
        Call::Encode,
        &[31, 32],
        Err(Fault::SampleRange { index: 1 }),
    ),
    (
        5,
        (2, 3),
        Call::Encode,
        &[31, 31, 32],
        Err(Fault::TooManySamples { limit: 2 }),
    ),
    (
        5,
        (2, 3),
        Call::Encode,
        &[32, 0, 0],
        Err(Fault::SampleRange { index: 0 }),
    ),
    (
        8,
        (2, 3),
        ALL,
        RAMP_CODED,
        Err(Fault::StreamTooLong { limit: 3 }),
    ),
    (
        8,
        (2, 3),
        Call::Decode { count: Some(3) },
        &[],
        Err(Fault::TooManySamples { limit: 2 }),
    ),
    (
        8,
        (2, 3),
        Call::Decode { count: Some(1) },
        &[0x20],
        Err(Fault::Truncated { bit: 0 }),
    ),
    (
        8,
        (8, 4),
        Call::Range { first: 0, len: 8 },
        RAMP_CODED,
        Ok(RAMP),
    ),
    (
        8,
        (8, 4),
        Call::Range { first: 2, len: 3 },
        RAMP_CODED,
        Ok(&[2, 3, 4]),
    ),
    (
        8,
        (8, 4),
        Call::Range { first: 7, len: 1 },
        RAMP_CODED,
        Ok(&[7]),
    ),
    (
        8,
        (8, 4),
        Call::Range { first: 8, len: 0 },
        RAMP_CODED,
        Ok(&[]),
    ),
    (
        8,
        (8, 4),
        Call::Range { first: 6, len: 3 },
        RAMP_CODED,
        OUTSIDE,
    ),
    (
        8,
        (8, 4),
        Call::Range { first: 9, len: 0 },
        RAMP_CODED,
        OUTSIDE,
    ),
];

#[test]
fn bytes_are_coded_and_decoded(rt: HostRuntime) -> Result<(), Fail> {
    for row in &ROWS {
        let (bits, most, call, bytes, wanted) = *row;
        let params = Params::new(Settings {
            bits,
            ..Settings::USUAL
        })?;
        let limits = Limits::new(most.0, most.1).ok_or("limits")?;
        match made(rt.alloc(), &params, limits, call, bytes) {
            Ok(found) => same_at(&rt, Ok(found.as_slice()), wanted, row),
            Err(fault) => same_at(&rt, Err(fault), wanted, row),
        }
    }
    Ok(())
}
