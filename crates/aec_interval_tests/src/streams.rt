//! Whole streams: the ways in which they are read, and the code of samples.

use crate::asserts::same_at;
use crate::settings::{
    PADDED, PLAIN, PLAIN_8, TEN, TWELVE_BITS, USUAL, WITH_64, WITH_128, WITH_4096,
};
use crate::shared::{MOST, RAMP, RAMP_OF_TEN, expect_bits, list_of};
use aec_bits::BitBuf;
use aec_interval::{StreamReader, decode_all, encode_all};
use aec_params::{Fault, Params, Settings};
use std::alloc::Global;
use std::process::Abort;
use std::test::Fail;

/// How a stream is read: at once, interval by interval, or several short intervals at a time.
#[derive(Clone, Copy, Debug, PartialEq, Eq)]
enum Way {
    AtOnce,
    ByIntervals,
    ByFew,
}

// The tests call readers through these functions, so that the readers' clauses stay out of the
// loops' proofs.

fn next(reader: &mut StreamReader, way: Way, samples: &mut Vec<i64>) -> Result<bool, Fault> {
    match way {
        Way::ByFew => reader.next_few(64, samples),
        _ => reader.next(samples),
    }
}

fn skip(reader: &mut StreamReader) -> Result<Option<u64>, Fault> {
    reader.skip()
}

/// Bits, their settings, a count of samples or none, and the limit.
#[derive(Clone, Copy)]
pub(crate) struct Stream<'a> {
    pub(crate) alloc: Global,
    pub(crate) params: Params,
    pub(crate) bits: &'a BitBuf,
    pub(crate) count: Option<u64>,
    pub(crate) limit: u64,
}

fn reader_of<'a>(stream: &Stream<'a>) -> Result<StreamReader<'a>, Fault> {
    let limit = stream.limit.min(1 << 32);
    StreamReader::new(
        stream.alloc,
        stream.params,
        stream.bits,
        stream.count,
        limit,
    )
}

/// Returns the samples of a stream.
fn read(stream: &Stream, way: Way) -> Result<Vec<i64>, Fault> {
    if way == Way::AtOnce {
        let limit = stream.limit.min(1 << 32);
        return decode_all(
            stream.alloc,
            &stream.params,
            stream.bits,
            stream.count,
            limit,
        );
    }
    let mut reader = reader_of(stream)?;
    let (mut all, mut samples) = (Vec::new(stream.alloc), Vec::new(stream.alloc));
    for _ in 0..MOST {
        if !next(&mut reader, way, &mut samples)? {
            break;
        }
        all.extend_from_slice(&samples)?;
    }
    Ok(all)
}

/// Returns how many samples are skipped interval by interval.
fn len_of(stream: &Stream) -> Result<u64, Fault> {
    let mut reader = reader_of(stream)?;
    let mut all = 0u64;
    for _ in 0..MOST {
        match skip(&mut reader)? {
            None => break,
            Some(len) => all = all.saturating_add(len),
        }
    }
    Ok(all)
}

/// Checks the result of reading a stream in each way, and its number of samples by skipping.
pub(crate) fn expect_read(
    rt: &impl Abort,
    stream: &Stream,
    wanted: Result<&[i64], Fault>,
    row: usize,
) -> Result<(), Fail> {
    for way in [Way::AtOnce, Way::ByIntervals, Way::ByFew] {
        match read(stream, way) {
            Ok(samples) => same_at(rt, Ok(samples.as_slice()), wanted, &(row, way)),
            Err(fault) => same_at(rt, Err(fault), wanted, &(row, way)),
        }
    }
    let len = wanted.map(|samples| samples.len() as u64);
    same_at(rt, len_of(stream), len, &row);
    Ok(())
}

const NARROW: Settings = Settings {
    bits: 2,
    interval: 1,
    restricted: true,
    ..Settings::USUAL
};

const WIDE: Settings = Settings {
    bits: 32,
    signed: true,
    ..Settings::USUAL
};

const EXTREMES: &[(i64, usize)] = &[
    (-2147483648, 1),
    (2147483647, 1),
    (-2147483648, 1),
    (2147483647, 1),
    (-2147483648, 1),
    (2147483647, 1),
    (-2147483648, 1),
    (2147483647, 1),
];

const EXTREME_CODE: &[u8] = &[
    0xFC, 0x00, 0x00, 0x00, 0x07, 0xFF, 0xFF, 0xFF, 0xFF, 0xFF, 0xFF, 0xFF, 0xFF, 0xFF, 0xFF, 0xFF,
    0xFF, 0xFF, 0xFF, 0xFF, 0xFF, 0xFF, 0xFF, 0xFF, 0xFF, 0xFF, 0xFF, 0xFF, 0xFF, 0xFF, 0xFF, 0xFF,
    0xF8,
];

// A row: settings; samples; the number of bits of their code; the code. Copies of the last sample
// fill up a block. A zero block is one whose mapped values are 0.
const CODES: [(Settings, &[(i64, usize)], u64, &[u8]); 33] = [
    (USUAL, &[], 0, &[]),
    (USUAL, &[(0, 8)], 13, &[0x00, 0x08]),
    (USUAL, RAMP, 31, &[0x20, 0x09, 0x24, 0x92]),
    (USUAL, &[(7, 5)], 13, &[0x00, 0x78]),
    (USUAL, &[(7, 8)], 13, &[0x00, 0x78]),
    (PLAIN, &[(7, 8)], 35, &[0x6A, 0xAA, 0xBF, 0xFF, 0xE0]),
    (PLAIN, &[(7, 5)], 35, &[0x6A, 0xAA, 0xBF, 0xFF, 0xE0]),
    // Intervals are coded by themselves.
    (USUAL, &[(0, 17)], 27, &[0x00, 0x04, 0x00, 0x20]),
    (PADDED, &[(0, 17)], 32, &[0x00, 0x04, 0x00, 0x08]),
    (PLAIN_8, &[(0, 128)], 18, &[0x00, 0x80, 0x40]),
    // Other widths. Of the first, no compression and the second extension have equal lengths.
    (NARROW, &[(0, 7), (3, 1)], 17, &[0x80, 0x01, 0x80]),
    (TWELVE_BITS, &[(1, 1)], 18, &[0x00, 0x00, 0xC0]),
    (TWELVE_BITS, &[(256, 1)], 18, &[0x00, 0x80, 0x40]),
    (WIDE, EXTREMES, 261, EXTREME_CODE),
    (TEN, RAMP_OF_TEN, 37, &[0x20, 0x09, 0x24, 0x92, 0x48]),
    // Runs end with their segments.
    (WITH_4096, &[(0, 40)], 17, &[0x00, 0x00, 0x80]),
    (WITH_4096, &[(0, 504)], 17, &[0x00, 0x00, 0x80]),
    (WITH_4096, &[(0, 512)], 17, &[0x00, 0x00, 0x80]),
    (WITH_4096, &[(0, 520)], 22, &[0x00, 0x00, 0x84]),
    (WITH_4096, &[(0, 1016)], 26, &[0x00, 0x00, 0x80, 0x40]),
    (WITH_4096, &[(0, 1024)], 26, &[0x00, 0x00, 0x80, 0x40]),
    (WITH_4096, &[(0, 1032)], 31, &[0x00, 0x00, 0x80, 0x42]),
    (
        WITH_4096,
        &[(0, 1600)],
        44,
        &[0x00, 0x00, 0x80, 0x40, 0x20, 0x10],
    ),
    // Runs of 63, 64, 65, 128 and 200 blocks end before other blocks.
    (
        WITH_4096,
        &[(0, 511), (1, 1)],
        86,
        &[0, 0, 0, 0, 0, 0, 0, 0, 0, 0x11, 0xE4],
    ),
    (
        WITH_4096,
        &[(0, 519), (1, 1)],
        27,
        &[0x00, 0x00, 0x8F, 0x20],
    ),
    (
        WITH_4096,
        &[(0, 527), (1, 1)],
        32,
        &[0x00, 0x00, 0x84, 0x79],
    ),
    (
        WITH_4096,
        &[(0, 1023), (1, 1)],
        95,
        &[0, 0, 0x80, 0, 0, 0, 0, 0, 0, 0, 0x08, 0xF2],
    ),
    (
        WITH_4096,
        &[(0, 1031), (1, 1)],
        36,
        &[0x00, 0x00, 0x80, 0x47, 0x90],
    ),
    (
        WITH_4096,
        &[(0, 1039), (1, 1)],
        41,
        &[0x00, 0x00, 0x80, 0x42, 0x3C, 0x80],
    ),
    (
        WITH_4096,
        &[(0, 1607), (1, 1)],
        58,
        &[0x00, 0x00, 0x80, 0x40, 0x20, 0x01, 0x1E, 0x40],
    ),
    (WITH_64, &[(0, 40)], 17, &[0x00, 0x00, 0x80]),
    (WITH_128, &[(0, 520)], 22, &[0x00, 0x00, 0x84]),
    // A run of six, and then a block by the second extension.
    (PLAIN_8, &[(0, 48), (1, 1), (0, 7)], 20, &[0x00, 0x22, 0xF0]),
];

#[test]
fn codes_and_reads_back(rt: HostRuntime) -> Result<(), Fail> {
    for (row, (settings, runs, len, bytes)) in CODES.iter().enumerate() {
        let samples = list_of(rt.alloc(), runs)?;
        let params = Params::new(*settings)?;
        let code = encode_all(rt.alloc(), &params, &samples)?;
        expect_bits(&rt, rt.alloc(), &code, *len, bytes)?;
        let stream = Stream {
            alloc: rt.alloc(),
            params,
            bits: &code,
            count: Some(samples.len() as u64),
            limit: MOST,
        };
        expect_read(&rt, &stream, Ok(&samples), row)?;
    }
    Ok(())
}
