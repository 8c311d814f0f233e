//! What bytes are decoded to, and what they are refused with.

use crate::settings::{PADDED, PLAIN, PLAIN_8, PLAIN_64, TEN, USUAL, WITH_64};
use crate::shared::{MOST, RAMP, RAMP_OF_TEN, list_of};
use crate::streams::{Stream, expect_read};
use aec_bits::BitBuf;
use aec_params::{Fault, Params, Settings};
use std::test::Fail;

// Two blocks of the pairs (0, 1), (1, 0), (0, 0), (1, 1), with the numbers 2, 1, 0, 4: twice
// 0001 001 01 1 00001.
const PAIRS: &[(i64, usize)] = &[
    (0, 1),
    (1, 2),
    (0, 3),
    (1, 2),
    (0, 1),
    (1, 2),
    (0, 3),
    (1, 2),
];

// The reference sample 5, and the mapped values 1 0 2 0 1 0 0: the pairs (0, 1), (0, 2), (0, 1),
// (0, 0), 0001 00000101 001 000001 001 1. Then 2 0 0 0 1 0 0 0: 0001 0001 1 01 1.
const REFERENCE_PAIRS: &[(i64, usize)] = &[(5, 1), (4, 2), (5, 2), (4, 3), (5, 4), (4, 4)];

// A row: settings; bytes; a count or none; the samples.
const READINGS: [(Settings, &[u8], Option<u64>, &[(i64, usize)]); 27] = [
    (USUAL, &[0x00, 0x78], Some(5), &[(7, 5)]),
    (USUAL, &[0x00, 0x78], None, &[(7, 8)]),
    // Bits after the last coded data set that is needed are not read.
    (USUAL, &[0x00, 0x78], Some(0), &[]),
    (USUAL, &[0xFF], Some(0), &[]),
    (USUAL, &[0x00, 0x7F, 0xFF], Some(8), &[(7, 8)]),
    (WITH_64, &[0x00, 0x00, 0x80], Some(40), &[(0, 40)]),
    (WITH_64, &[0x00, 0x00, 0x80], None, &[(0, 512)]),
    // A rest of zeros ends the stream.
    (USUAL, &[], None, &[]),
    (USUAL, &[0x00], None, &[]),
    (USUAL, &[0x00; 20], None, &[]),
    (USUAL, &[0x00, 0x08, 0x00, 0x00], None, &[(0, 8)]),
    // The remainder code, with fewer than five blocks left; then at the end of intervals of 8.
    (USUAL, &[0x00, 0x00, 0x80], None, &[(0, 16)]),
    (PLAIN_8, &[0x00, 0x80, 0x40], None, &[(0, 128)]),
    // A run must fit its segment, but may be longer than needed: of 63 blocks the count needs one.
    (
        WITH_64,
        &[0, 0, 0, 0, 0, 0, 0, 0, 0, 0x10],
        Some(8),
        &[(0, 8)],
    ),
    (
        WITH_63,
        &[0, 0, 0, 0, 0, 0, 0, 0, 0, 0x10],
        Some(8),
        &[(0, 8)],
    ),
    // Splitting with k = 1 is as long as with k = 0, which the coder writes.
    (USUAL, &[0x40, 0x15, 0x55, 0x80], None, RAMP),
    (TEN, &[0x40, 0x15, 0x55, 0x58, 0x00], None, RAMP_OF_TEN),
    (
        PLAIN,
        &[0xE0, 0x00, 0x20, 0x40, 0x60, 0x80, 0xA0, 0xC0, 0xE0],
        None,
        RAMP,
    ),
    (PLAIN, &[0x6A, 0xAA, 0xBF, 0xFF, 0xE0], None, &[(7, 8)]),
    // Pairs after pairs, as an interval, then as the front of a longer one.
    (PLAIN, &[0x12, 0xC2, 0x25, 0x84], None, PAIRS),
    (PLAIN_64, &[0x12, 0xC2, 0x25, 0x84], None, PAIRS),
    (
        USUAL,
        &[0x10, 0x52, 0x09, 0x88, 0xD8],
        None,
        REFERENCE_PAIRS,
    ),
    (
        WITH_64,
        &[0x10, 0x52, 0x09, 0x88, 0xD8],
        None,
        REFERENCE_PAIRS,
    ),
    (USUAL, &[0x00, 0x04, 0x00, 0x20], Some(17), &[(0, 17)]),
    // The skipped bits after a full interval may be ones.
    (PADDED, &[0x00, 0x04, 0x00, 0x08], None, &[(0, 24)]),
    (PADDED, &[0x00, 0x07], None, &[(0, 16)]),
    (PADDED, &[0x00, 0x07, 0x00, 0x08], None, &[(0, 24)]),
];

#[test]
fn reads_what_the_count_asks_for(rt: HostRuntime) -> Result<(), Fail> {
    for (row, (settings, bytes, count, runs)) in READINGS.iter().enumerate() {
        let stream = Stream {
            alloc: rt.alloc(),
            params: Params::new(*settings)?,
            bits: &BitBuf::from_bytes(rt.alloc(), bytes)?,
            count: *count,
            limit: MOST,
        };
        expect_read(&rt, &stream, Ok(&list_of(rt.alloc(), runs)?), row)?;
    }
    Ok(())
}

const ONE_BIT: Settings = Settings {
    bits: 1,
    preprocess: false,
    ..Settings::USUAL
};

const WITH_62: Settings = Settings {
    interval: 62,
    ..Settings::USUAL
};

const WITH_63: Settings = Settings {
    interval: 63,
    ..Settings::USUAL
};

// A row: settings; bytes; a count or none; the limit; why the bytes are refused.
const REFUSALS: [(Settings, &[u8], Option<u64>, u64, Fault); 15] = [
    (
        USUAL,
        &[0x20, 0x09, 0x24],
        None,
        MOST,
        Fault::Truncated { bit: 0 },
    ),
    (USUAL, &[0x00], Some(8), MOST, Fault::Truncated { bit: 0 }),
    (
        USUAL,
        &[0x00, 0x78],
        Some(9),
        MOST,
        Fault::Truncated { bit: 13 },
    ),
    // After the 64 blocks of the remainder code.
    (
        WITH_64,
        &[0x00, 0x00, 0x80],
        Some(513),
        MOST,
        Fault::Truncated { bit: 17 },
    ),
    // Without padding nothing is skipped.
    (
        USUAL,
        &[0x00, 0x07],
        None,
        MOST,
        Fault::Truncated { bit: 14 },
    ),
    // A fundamental sequence without an end. If it had one, the run would be too long.
    (
        USUAL,
        &[0x00; 20],
        Some(8),
        MOST,
        Fault::Truncated { bit: 0 },
    ),
    (
        ONE_BIT,
        &[0x27, 0xF8],
        Some(8),
        MOST,
        Fault::ValueTooLarge { bit: 0 },
    ),
    // Three blocks in an interval of two; two blocks, after the first block of an interval of two;
    // 63 blocks in an interval of 62.
    (
        USUAL,
        &[0x00, 0x02],
        None,
        MOST,
        Fault::RunTooLong { bit: 0 },
    ),
    (
        USUAL,
        &[0x00, 0x08, 0x20],
        None,
        MOST,
        Fault::RunTooLong { bit: 13 },
    ),
    (
        WITH_62,
        &[0, 0, 0, 0, 0, 0, 0, 0, 0, 0x10],
        Some(8),
        MOST,
        Fault::RunTooLong { bit: 0 },
    ),
    (
        WITH_64,
        &[0x00, 0x00, 0x80],
        None,
        100,
        Fault::TooManySamples { limit: 100 },
    ),
    (
        WITH_64,
        &[0x00, 0x00, 0x80],
        None,
        511,
        Fault::TooManySamples { limit: 511 },
    ),
    // A count is judged before anything is read.
    (
        WITH_64,
        &[0x00, 0x00, 0x80],
        Some(40),
        39,
        Fault::TooManySamples { limit: 39 },
    ),
    (
        USUAL,
        &[0x00],
        Some(MOST + 1),
        MOST,
        Fault::TooManySamples { limit: MOST },
    ),
    (
        USUAL,
        &[0x00],
        Some(MOST),
        MOST,
        Fault::Truncated { bit: 0 },
    ),
];

#[test]
fn refuses_what_is_no_stream(rt: HostRuntime) -> Result<(), Fail> {
    for (row, (settings, bytes, count, limit, fault)) in REFUSALS.iter().enumerate() {
        let stream = Stream {
            alloc: rt.alloc(),
            params: Params::new(*settings)?,
            bits: &BitBuf::from_bytes(rt.alloc(), bytes)?,
            count: *count,
            limit: *limit,
        };
        expect_read(&rt, &stream, Err(*fault), row)?;
    }
    Ok(())
}
