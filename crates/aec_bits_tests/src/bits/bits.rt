//! Lists of bits and their readers, call by call, and splices compared with those of a plain list.

ghost use Rattle.std.specs.Prelude.{◌≤◌, length};

use crate::asserts::{holds_at, same, same_at};
use aec_bits::{BitBuf, BitReader};
use aec_params::Fault;
use std::alloc::Global;
use std::process::Abort;
use std::test::Fail;

/// Returns the bytes that the bits fill, read one by one.
pub(crate) fn bytes(alloc: Global, buf: &BitBuf) -> Result<Vec<u8>, Fault> {
    let mut bytes = Vec::new(alloc);
    for i in 0..buf.byte_len() {
        bytes.push(buf.byte(i))?;
    }
    Ok(bytes)
}

pub(crate) fn bits(alloc: Global, list: &[bool]) -> Result<BitBuf, Fault> {
    let mut buf = BitBuf::new(alloc);
    for bit in list {
        buf.push_bits(u64::from(*bit), 1)?;
    }
    Ok(buf)
}

/// A call that changes a list of bits.
#[derive(Clone, Copy, Debug)]
enum Change {
    Reserve(u64),
    /// Pushes 5 in three bits.
    PushFive,
    PushFs(u64),
    Append(&'static [bool]),
    AppendBytes(&'static [u8]),
    Splice(u64, u64, &'static [bool]),
    Truncate(u64),
    Pad,
}

fn make(alloc: Global, buf: &mut BitBuf, change: Change) -> Result<(), Fault> {
    let len = buf.len();
    match change {
        Change::Reserve(bits) => buf.reserve(bits),
        Change::PushFive => buf.push_bits(5, 3),
        Change::PushFs(v) => buf.push_fs(v),
        Change::Append(list) => buf.append(&bits(alloc, list)?),
        Change::AppendBytes(bytes) => buf.append_bytes(bytes),
        Change::Splice(start, stop, list) => {
            let stop = stop.min(len);
            buf.splice(start.min(stop), stop, &bits(alloc, list)?)
        }
        Change::Truncate(kept) => {
            buf.truncate(kept.min(len));
            Ok(())
        }
        Change::Pad => buf.pad_to_byte(),
    }
}

// A row: a call on the list that the row before leaves; the number of bits after it, and the bytes
// that they fill. The first list is empty.
const CHANGES: [(Change, u64, &[u8]); 14] = [
    (Change::Append(&[true, false, true]), 3, &[0xA0]),
    (Change::Pad, 8, &[0xA0]),
    (Change::Truncate(0), 0, &[]),
    (Change::Splice(0, 0, &[true, false, true]), 3, &[0xA0]),
    (Change::Truncate(0), 0, &[]),
    (Change::Reserve(100), 0, &[]),
    (Change::PushFive, 3, &[0xA0]),
    (Change::PushFs(4), 8, &[0xA1]),
    (Change::Append(&[true, true]), 10, &[0xA1, 0xC0]),
    (
        Change::Splice(2, 7, &[false, true, true, false]),
        9,
        &[0x9B, 0x80],
    ),
    (Change::Truncate(5), 5, &[0x98]),
    (Change::AppendBytes(&[0x42]), 13, &[0x9A, 0x10]),
    (Change::Truncate(5), 5, &[0x98]),
    (Change::Pad, 8, &[0x98]),
];

#[test]
fn builds_and_edits(rt: HostRuntime) -> Result<(), Fail> {
    let mut buf = BitBuf::new(rt.alloc());
    for (change, len, wanted) in &CHANGES {
        make(rt.alloc(), &mut buf, *change)?;
        same_at(&rt, buf.len(), *len, change);
        same_at(&rt, bytes(rt.alloc(), &buf)?.as_slice(), *wanted, change);
    }
    Ok(())
}

#[test]
fn refuses_more_than_a_list_holds(rt: HostRuntime) {
    for change in [Change::Reserve((1 << 62) + 1), Change::PushFs(u64::MAX)] {
        let mut buf = BitBuf::new(rt.alloc());
        let answer = make(rt.alloc(), &mut buf, change);
        same_at(&rt, answer, Err(Fault::Memory), &change);
        same_at(&rt, buf.len(), 0, &change);
    }
}

/// A call of a reader: of `read` with these bits, of `read_fs`, `skip_to_byte` or `rest_is_zero`.
#[derive(Clone, Copy, Debug)]
enum Reading {
    Number(u32),
    Fs,
    Skip,
    RestIsZero,
}

/// Returns the number that is read, 0 after a skip, or 1 if the rest is zero.
fn read(reader: &mut BitReader, call: Reading) -> Result<u64, Fault> {
    match call {
        Reading::Number(width) => reader.read(width.min(64)),
        Reading::Fs => reader.read_fs(),
        Reading::Skip => {
            reader.skip_to_byte();
            Ok(0)
        }
        Reading::RestIsZero => Ok(u64::from(reader.rest_is_zero())),
    }
}

// A row: a call on a reader of 1001 1000, where the row before leaves it; its result; the position
// after it.
const READS: [(Reading, Result<u64, Fault>, u64); 9] = [
    (Reading::Number(3), Ok(4), 3),
    (Reading::Fs, Ok(0), 4),
    (Reading::Fs, Ok(0), 5),
    (Reading::RestIsZero, Ok(1), 5),
    (Reading::Fs, Err(Fault::Truncated { bit: 5 }), 5),
    (Reading::Skip, Ok(0), 8),
    (Reading::Number(1), Err(Fault::Truncated { bit: 8 }), 8),
    (Reading::Skip, Ok(0), 8),
    (Reading::RestIsZero, Ok(1), 8),
];

#[test]
fn reads_and_stays(rt: HostRuntime) -> Result<(), Fail> {
    let buf = BitBuf::from_bytes(rt.alloc(), &[0x98])?;
    let mut reader = BitReader::new(&buf);
    for (call, wanted, end) in &READS {
        same_at(&rt, read(&mut reader, *call), *wanted, call);
        same_at(&rt, reader.pos(), *end, call);
    }
    Ok(())
}

/// Returns whether the bits equal those of a slice.
fn are(buf: &BitBuf, list: &[bool]) -> bool {
    if buf.len() != list.len() as u64 {
        return false;
    }
    for (i, bit) in list.iter().enumerate() {
        if buf.get(i as u64) != *bit {
            return false;
        }
    }
    true
}

/// Returns `len` bits, at most 200, with a period of 7.
fn sample_list(alloc: Global, len: usize, step: usize) -> Result<Vec<bool>, Fault> {
    let mut list = Vec::new(alloc);
    for i in 0..len.min(200) {
        list.push(i * step.min(100) % 7 < 3)?;
    }
    Ok(list)
}

/// Returns whether a splice of bits has the same result as a splice of a plain list.
fn splices(
    alloc: Global,
    list: &[bool],
    start: usize,
    stop: usize,
    with: &[bool],
) -> Result<bool, Fault>
    requires order { start ≤ stop }
    requires within { stop ≤ length list.now }
{
    let mut want = list[..start].to_vec(alloc)?;
    want.extend_from_slice(with)?;
    want.extend_from_slice(&list[stop..])?;
    let mut buf = bits(alloc, list)?;
    if (stop as u64) > buf.len() {
        return Ok(false);
    }
    buf.splice(start as u64, stop as u64, &bits(alloc, with)?)?;
    Ok(are(&buf, &want))
}

// Checks a splice if `places` (start, stop, number of new bits) are in order and within the list.
fn expect_splice<R: Abort>(
    rt: &R,
    alloc: Global,
    list: &[bool],
    places: [usize; 3],
) -> Result<(), Fail> {
    let [start, stop, added] = places;
    let with = sample_list(alloc, added, 5)?;
    if start <= stop && stop <= list.len() {
        let is_so = splices(alloc, list, start, stop, &with)?;
        holds_at(rt, is_so, &(&list.len(), &places));
    }
    Ok(())
}

#[test]
fn splices_as_a_list(rt: HostRuntime) -> Result<(), Fail> {
    let alloc = rt.alloc();
    let sizes = [0, 1, 7, 8, 9, 63, 64, 65, 127, 128, 129];
    for len in sizes {
        let list = sample_list(alloc, len, 3)?;
        for start in sizes {
            for stop in sizes {
                for added in sizes {
                    expect_splice(&rt, alloc, &list, [start, stop, added])?;
                }
            }
        }
    }
    Ok(())
}

#[test]
fn a_million_zeros_and_a_one(rt: HostRuntime) -> Result<(), Fail> {
    let mut buf = BitBuf::new(rt.alloc());
    buf.push_fs(1_000_000)?;
    buf.push_fs(1_000_000)?;
    same(&rt, buf.len(), 2_000_002);
    let mut reader = BitReader::new(&buf);
    for wanted in [
        Ok(1_000_000),
        Ok(1_000_000),
        Err(Fault::Truncated { bit: 2_000_002 }),
    ] {
        same(&rt, reader.read_fs(), wanted);
    }
    Ok(())
}
