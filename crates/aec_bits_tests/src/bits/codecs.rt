//! The trait `Codec`, with the codec of octets.

ghost use Rattle.std.specs.Prelude.{◌≡◌, ◌++◌, OnOk};
ghost use Rattle.aec_bits.specs.Codec.{IsInterval};

use super::bits::{bits, bytes};
use crate::asserts::same;
use aec_bits::laws::Octets;
use aec_bits::{BitBuf, Codec};
use aec_params::Fault;
use std::test::Fail;

/// Appends the code of an interval to some bits, and decodes it again.
fn there_and_back<C: Codec>(
    codec: &mut C,
    samples: &[i64],
    buf: &mut BitBuf,
    out: &mut Vec<i64>,
) -> Result<(), Fault>
    requires { IsInterval (C.format codec.old) samples.now }
{
    let start = buf.len();
    codec.code(samples, buf)?;
    codec.decode(buf, start, samples.len() as u64, out)
}

// A row: how often the codec was called; the result; then the bytes, which begin with a bit that
// was there before, and the samples that are decoded.
const ROWS: [(u64, Result<(), Fault>, &[u8], &[i64]); 2] = [
    (0, Ok(()), &[0x80, 0x81, 0x01, 0x80], &[1, 2, 3]),
    (u64::MAX, Err(Fault::Spent), &[0x80], &[]),
];

#[test]
fn codes_octets_and_back(rt: HostRuntime) -> Result<(), Fail> {
    for (called, answer, wanted, samples) in &ROWS {
        let mut codec = Octets::new(rt.alloc(), *called);
        let mut buf = bits(rt.alloc(), &[true])?;
        let mut out = Vec::new(rt.alloc());
        let found = there_and_back(&mut codec, &[1, 2, 3], &mut buf, &mut out);
        same(&rt, found, *answer);
        same(&rt, bytes(rt.alloc(), &buf)?.as_slice(), *wanted);
        same(&rt, out.as_slice(), *samples);
        let len = samples.len() as u64;
        same(&rt, buf.len(), 1 + 8 * len.min(3));
        let made = u64::from(answer.is_ok());
        same(&rt, codec.calls(), called.saturating_add(made));
        same(&rt, codec.reads(), made);
    }
    Ok(())
}

#[test]
fn spent_calls_change_nothing(rt: HostRuntime) -> Result<(), Fail> {
    let mut codec = Octets::new(rt.alloc(), u64::MAX);
    let mut buf = bits(rt.alloc(), &[true, false])?;
    same(&rt, codec.code(&[1], &mut buf), Err(Fault::Spent));
    same(&rt, buf.len(), 2);
    same(&rt, bytes(rt.alloc(), &buf)?.as_slice(), [0x80].as_slice());
    same(&rt, codec.calls(), u64::MAX);
    Ok(())
}
