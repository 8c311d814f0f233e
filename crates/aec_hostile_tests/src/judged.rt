//! Streams made to mislead a reader, with the result that FORMAT.md demands for each. The library
//! and the plain reader must both return this result.

ghost use Rattle.std.specs.Prelude.{◌≤◌, ◌^◌};

use crate::compared::{Stream, expect_answer};
use aec_params::{Fault, Settings};
use std::alloc::Global;
use std::process::Abort;
use std::test::Fail;

/// The greatest limit of samples.
const MOST: u64 = 1 << 32;

/// Checks that both readers return `len` zeros.
fn expect_zeros(
    rt: &impl Abort,
    alloc: Global,
    stream: &Stream,
    limit: u64,
    len: usize,
) -> Result<(), Fail>
    requires { limit ≤ 2 ^ 32 }
{
    let zeros = vec![in alloc; 0i64; len]?;
    expect_answer(rt, alloc, stream, limit, Ok(&zeros))
}

/// Returns three intervals of zeros, cut after `len` bytes, with a count or without one.
fn three_intervals(len: usize, count: Option<u64>) -> Stream<'static> {
    let bytes: &'static [u8] = &[0x00, 0x04, 0x00, 0x10, 0x00, 0x40];
    Stream {
        settings: Settings::USUAL,
        bytes: bytes.get(..len).unwrap_or(bytes),
        count,
    }
}

#[test]
fn cut_intervals_are_left_out_without_a_count(rt: HostRuntime) -> Result<(), Fail> {
    for (bytes, samples) in [(0, 0), (1, 0), (2, 16), (3, 16), (4, 32), (5, 32), (6, 48)] {
        expect_zeros(
            &rt,
            rt.alloc(),
            &three_intervals(bytes, None),
            MOST,
            samples,
        )?;
    }
    Ok(())
}

#[test]
fn cut_intervals_are_refused_with_a_count(rt: HostRuntime) -> Result<(), Fail> {
    for (bytes, bit) in [(0, 0), (1, 0), (2, 14), (3, 14), (4, 28), (5, 28)] {
        let cut = Err(Fault::Truncated { bit });
        expect_answer(
            &rt,
            rt.alloc(),
            &three_intervals(bytes, Some(48)),
            MOST,
            cut,
        )?;
    }
    expect_zeros(&rt, rt.alloc(), &three_intervals(6, Some(48)), MOST, 48)
}

#[test]
fn a_short_run_that_stands_for_many_samples_keeps_the_limit(rt: HostRuntime) -> Result<(), Fail> {
    // 64 blocks of 64 zeros in 17 bits.
    let run = Stream {
        settings: Settings {
            block_size: 64,
            interval: 4096,
            ..Settings::USUAL
        },
        bytes: &[0x00, 0x00, 0x80],
        count: None,
    };
    let passed = Err(Fault::TooManySamples { limit: 4095 });
    expect_answer(&rt, rt.alloc(), &run, 4095, passed)?;
    expect_zeros(&rt, rt.alloc(), &run, 4096, 4096)
}

#[test]
fn a_run_ends_with_its_segment(rt: HostRuntime) -> Result<(), Fail> {
    // A run of 70 blocks: 82 zeros and a one.
    let run = Stream {
        settings: Settings {
            interval: 4096,
            ..Settings::USUAL
        },
        bytes: &[0, 0, 0, 0, 0, 0, 0, 0, 0, 0, 0x20],
        count: None,
    };
    let past = Err(Fault::RunTooLong { bit: 0 });
    expect_answer(&rt, rt.alloc(), &run, MOST, past)
}

/// Checks the result for a block of pairs. The number of the first pair ends at about bit 32,900,
/// in the byte `last`, which also contains the other three pairs.
fn expect_pairs(
    rt: &impl Abort,
    alloc: Global,
    last: u8,
    answer: Result<&[i64], Fault>,
) -> Result<(), Fail> {
    let mut bytes = vec![in alloc; 0u8; 4112]?;
    if let Some(first) = bytes.first_mut() {
        *first = 0x10;
    }
    bytes.push(last)?;
    let pairs = Stream {
        settings: Settings {
            preprocess: false,
            ..Settings::USUAL
        },
        bytes: &bytes,
        count: Some(8),
    };
    expect_answer(rt, alloc, &pairs, MOST, answer)
}

#[test]
fn members_of_pairs_are_judged_by_their_width(rt: HostRuntime) -> Result<(), Fail> {
    // The pair (0, 255), of number 32,895.
    let held = [0, 255, 0, 0, 0, 0, 0, 0];
    expect_pairs(&rt, rt.alloc(), 0x1E, Ok(&held))?;
    // The pair (256, 0), of number 32,896.
    let large = Err(Fault::ValueTooLarge { bit: 0 });
    expect_pairs(&rt, rt.alloc(), 0x0F, large)
}
