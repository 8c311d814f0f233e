//! Intervals that an `AecCodec` codes and decodes.

ghost use Rattle.std.specs.Prelude.{◌≡◌};
ghost use Rattle.std.specs.Bool.{OnTrue};
ghost use Rattle.std.specs.List.{list_all};
ghost use Rattle.aec_bits.specs.Codec.{IsInterval};

use crate::asserts::{holds, same};
use crate::settings::{PADDED, USUAL};
use crate::shared::{RAMP, expect_bits, list_of};
use aec_bits::{BitBuf, Codec};
use aec_interval::AecCodec;
use aec_params::{Fault, Params, Settings};
use std::process::Abort;
use std::test::Fail;

fn are_held<C: Codec>(codec: &C, samples: &[i64]) -> bool
    ensures { result ≡ list_all (C.format codec.now).holds samples.now }
{
    samples.iter().all(|x| codec.holds(*x))
}

fn is_interval<C: Codec>(codec: &C, samples: &[i64]) -> bool
    ensures { OnTrue result (IsInterval (C.format codec.now) samples.now) }
{
    let is_few = samples.len() as u64 <= codec.interval_len();
    !samples.is_empty() && is_few && are_held(codec, samples)
}

/// Checks that the samples are an interval, appends its code to some bits, and decodes it again.
fn there_and_back<C: Codec>(
    rt: &impl Abort,
    codec: &mut C,
    samples: &[i64],
    buf: &mut BitBuf,
    out: &mut Vec<i64>,
) -> Result<(), Fault> {
    holds(rt, is_interval(codec, samples));
    let start = buf.len();
    codec.code(samples, buf)?;
    codec.decode(buf, start, samples.len() as u64, out)
}

// A row: settings; how often the codec was called; the samples of an interval; the result; then the
// number of bits, and the bits, which begin with `101`.
const ROWS: [(
    Settings,
    u64,
    &[(i64, usize)],
    Result<(), Fault>,
    u64,
    &[u8],
); 6] = [
    (USUAL, 0, RAMP, Ok(()), 34, &[0xA4, 0x01, 0x24, 0x92, 0x40]),
    // An interval is padded by its own length, wherever it begins.
    (PADDED, 0, &[(0, 8)], Ok(()), 19, &[0xA0, 0x01, 0x00]),
    (PADDED, 0, &[(7, 5)], Ok(()), 19, &[0xA0, 0x0F, 0x00]),
    (USUAL, 0, &[(7, 5)], Ok(()), 16, &[0xA0, 0x0F]),
    // The last call, and none.
    (USUAL, u64::MAX - 1, &[(7, 1)], Ok(()), 16, &[0xA0, 0x0F]),
    (USUAL, u64::MAX, &[(7, 1)], Err(Fault::Spent), 3, &[0xA0]),
];

#[test]
fn codes_intervals_behind_other_bits(rt: HostRuntime) -> Result<(), Fail> {
    for (settings, called, runs, answer, len, bytes) in &ROWS {
        let samples = list_of(rt.alloc(), runs)?;
        let params = Params::new(*settings)?;
        let mut codec = AecCodec::with_calls(rt.alloc(), params, *called);
        let mut buf = BitBuf::new(rt.alloc());
        buf.push_bits(5, 3)?;
        let mut out = Vec::new(rt.alloc());
        let found = there_and_back(&rt, &mut codec, &samples, &mut buf, &mut out);
        same(&rt, found, *answer);
        expect_bits(&rt, rt.alloc(), &buf, *len, bytes)?;
        let made = u64::from(answer.is_ok());
        same(&rt, out.len() as u64, made * samples.len() as u64);
        holds(&rt, out.is_empty() || out == samples);
        let counts = (called.saturating_add(made), made);
        same(&rt, (codec.calls(), codec.reads()), counts);
    }
    Ok(())
}

const LONGEST: Settings = Settings {
    block_size: 64,
    interval: 4096,
    preprocess: false,
    ..Settings::USUAL
};

const LONGEST_OF_62: Settings = Settings {
    block_size: 62,
    even_blocks: true,
    ..LONGEST
};

// The longest interval of all, and the longest with blocks of 62 samples, all from 128 to 254:
// settings, samples, bits. Without preprocessing each block is coded by no compression, in 3 bits
// and 8 a sample: splitting with the greatest k, 5, takes at least 10 bits a sample.
const LONG: [(Settings, i64, u64); 2] = [
    (LONGEST, 262_144, 2_109_440),
    (LONGEST_OF_62, 253_952, 2_043_904),
];

#[test]
fn codes_the_longest_interval(rt: HostRuntime) -> Result<(), Fail> {
    for (settings, count, len) in &LONG {
        let mut codec = AecCodec::new(rt.alloc(), Params::new(*settings)?);
        let mut samples = Vec::new(rt.alloc());
        for index in 0..*count {
            samples.push(128 + index % 127)?;
        }
        let mut buf = BitBuf::new(rt.alloc());
        let mut out = Vec::new(rt.alloc());
        there_and_back(&rt, &mut codec, &samples, &mut buf, &mut out)?;
        same(&rt, buf.len(), *len);
        holds(&rt, out == samples);
    }
    Ok(())
}
