//! Inputs far longer than a piece, a block or an interval. For them a body that always returns
//! `Memory` would be proved too.

use crate::asserts::{holds_at, same_at};
use crate::shared::run_of;
use std::alloc::{Alloc, Global};
use std::fs;
use std::process::Abort;
use std::rt::Files;
use std::test::Fail;

// One sample more than 131,072 blocks of 8 contain.
const SAMPLES: usize = (1 << 20) + 1;

// Returns samples from 128 to 254. Without preprocessing no option makes a block of them shorter
// than no compression: splitting with the greatest k, 5, takes at least 10 bits a sample.
fn high_samples(alloc: Global) -> Result<Vec<u8>, Fail> {
    let mut bytes = Vec::new(alloc);
    for index in 0..SAMPLES {
        bytes.push(128 + (index % 127) as u8)?;
    }
    Ok(bytes)
}

// Checks that a run succeeds and prints nothing, and returns the bytes of DEST.
fn written<R: Abort + Files + Alloc<A = Global>>(
    rt: &R,
    alloc: Global,
    words: &str,
    dest: &str,
) -> Result<Vec<u8>, Fail> {
    let (status, out, err) = run_of(rt, alloc, words)?;
    same_at(rt, (status, out.len(), err.len()), (0, 0, 0), &words);
    Ok(fs::read(rt, dest)?)
}

// The words of both runs; the length of the code, which is 3 bits of identifier and the samples of
// each block; the length of what is decoded.
const ROUND_TRIPS: [(&str, &str, usize, usize); 3] = [
    (
        "-N much.raw much.aec",
        "-d -N much.aec much.back",
        1_097_737,
        1_048_584,
    ),
    (
        "-N -j 64 -r 4096 much.raw much.aec",
        "-d -N -j 64 -r 4096 much.aec much.back",
        1_054_785,
        1_048_640,
    ),
    (
        "-N --even-blocks -j 62 -r 4096 much.raw much.aec",
        "-d -N --even-blocks -j 62 -r 4096 much.aec much.back",
        1_054_949,
        1_048_606,
    ),
];

// Codes the samples and decodes them by these words. Checks both lengths and the decoded samples.
fn there_and_back<R: Abort + Files + Alloc<A = Global>>(
    rt: &R,
    samples: &[u8],
    coding: &str,
    decoding: &str,
    lens: (usize, usize),
) -> Result<(), Fail> {
    let coded = written(rt, rt.alloc(), coding, "much.aec")?;
    let back = written(rt, rt.alloc(), decoding, "much.back")?;
    same_at(rt, (coded.len(), back.len()), lens, &coding);
    holds_at(rt, back.starts_with(samples), &decoding);
    Ok(())
}

#[test]
fn a_million_samples_are_coded_and_decoded(rt: HostRuntime) -> Result<(), Fail> {
    let samples = high_samples(rt.alloc())?;
    fs::write(&rt, "much.raw", samples.as_slice())?;
    for (coding, decoding, coded_len, len) in ROUND_TRIPS {
        there_and_back(&rt, &samples, coding, decoding, (coded_len, len))?;
    }
    for name in ["much.raw", "much.aec", "much.back"] {
        fs::remove_file(&rt, name)?;
    }
    Ok(())
}
