//! What the library reads, compared with what the plain reader reads.

ghost use Rattle.std.specs.Prelude.{◌≤◌, ◌^◌};

use crate::asserts::same_at;
use crate::plain_reader::read_plainly;
use aec_bits::BitBuf;
use aec_interval::decode_all;
use aec_params::{Fault, Params, Settings};
use std::alloc::Global;
use std::fmt::Debug;
use std::process::Abort;
use std::test::Fail;

/// A stream, and how it is read.
#[derive(Clone, Copy, Debug)]
pub(crate) struct Stream<'a> {
    pub(crate) settings: Settings,
    pub(crate) bytes: &'a [u8],
    pub(crate) count: Option<u64>,
}

/// Returns the bits of bytes, the most significant bit of each byte first.
fn bits_of(alloc: Global, bytes: &[u8]) -> Result<Vec<bool>, Fault> {
    let mut bits = Vec::new(alloc);
    for byte in bytes {
        for place in 0..8u32 {
            bits.push(byte << place >= 128)?;
        }
    }
    Ok(bits)
}

fn read_by_library(alloc: Global, stream: &Stream, limit: u64) -> Result<Vec<i64>, Fault>
    requires { limit ≤ 2 ^ 32 }
{
    let bits = BitBuf::from_bytes(alloc, stream.bytes)?;
    decode_all(
        alloc,
        &Params::new(stream.settings)?,
        &bits,
        stream.count,
        limit,
    )
}

fn read_by_bits(alloc: Global, stream: &Stream, limit: u64) -> Result<Vec<i64>, Fault> {
    let bits = bits_of(alloc, stream.bytes)?;
    read_plainly(alloc, stream.settings, &bits, stream.count, limit)
}

/// Checks that both return the same samples or the same fault.
pub(crate) fn expect_agreement(
    rt: &impl Abort,
    alloc: Global,
    stream: &Stream,
    limit: u64,
    case: &impl Debug,
)
    requires { limit ≤ 2 ^ 32 }
{
    let found = read_by_library(alloc, stream, limit);
    same_at(rt, found, read_by_bits(alloc, stream, limit), case);
}

/// Checks that both return these samples or this fault.
pub(crate) fn expect_answer(
    rt: &impl Abort,
    alloc: Global,
    stream: &Stream,
    limit: u64,
    answer: Result<&[i64], Fault>,
) -> Result<(), Fail>
    requires { limit ≤ 2 ^ 32 }
{
    let found = read_by_library(alloc, stream, limit);
    let wanted = match answer {
        Ok(samples) => Ok(Vec::from_slice(alloc, samples)?),
        Err(fault) => Err(fault),
    };
    same_at(rt, found, wanted, stream);
    expect_agreement(rt, alloc, stream, limit, stream);
    Ok(())
}
