//! Decodes from a bit on, and finds the bits where intervals begin, by C's options, into a buffer.

ghost use Rattle.std.specs.Prelude.{◌≡◌, ◌-◌, ◌*◌, ◌^◌, min, length};
ghost use Rattle.aec_engine.specs.Buffers.{FillsOne};
ghost use Rattle.aec_c.specs.Calls.{settings_of, count_of};
ghost use Rattle.aec_c.specs.OffsetCalls.{is_bit_refused, bit_refused, DecodesAt, IsFinding};

use crate::answers::{limits, params_of};
use crate::options::{Options, count_of};
use crate::reply::{BIT_OUT_OF_RANGE, Reply, refused, reply_of};
use aec_engine::{decode_at_into, offsets_into};
use aec_params::{Fault, Params};
use std::alloc::Global;

/// Returns how many bits bytes have, but at most 2^64 - 1.
fn bit_count(coded: &[u8]) -> u64
    ensures { result ≡ min (8 * length coded.now) (2 ^ 64 - 1) }
{
    (coded.len() as u64).saturating_mul(8)
}

/// Returns whether decoding can't begin at a bit: it is after the end; or, with padding, it isn't
/// the first bit of a byte.
fn is_bit_refused(params: &Params, coded: &[u8], bit: u64) -> bool
    ensures { result ≡ is_bit_refused params.now coded.now bit }
{
    bit > bit_count(coded) || params.pad() && bit % 8 != 0
}

/// Returns the reply to a call that is refused for its bit.
fn bit_refused(coded: &[u8]) -> Reply
    ensures { result ≡ bit_refused coded.now }
{
    Reply {
        fault: BIT_OUT_OF_RANGE,
        place: bit_count(coded),
        len: 0,
    }
}

/// Writes the stored samples that coded bytes decode to from a bit on to a buffer if there is room
/// for all of them. Returns the reply.
pub(crate) fn decode_from_bit(
    alloc: Global,
    options: &Options,
    bit: u64,
    count: u64,
    coded: &[u8],
    out: &mut [u8],
) -> Reply
    ensures { DecodesAt (settings_of options.now) bit (count_of count) coded.now out.old out.new
        result }
{
    let params = match params_of(options) {
        Ok(params) => params,
        Err(fault) => return refused(fault),
    };
    if is_bit_refused(&params, coded, bit) {
        return bit_refused(coded);
    }
    let room = out.len();
    let answer = decode_at_into(alloc, &params, limits(), bit, count_of(count), coded, out);
    reply_of(answer, room)
}

/// Writes the offsets of the intervals of coded bytes to a buffer if there is room for all of them.
/// Returns how many there are.
pub(crate) fn offsets_with(
    alloc: Global,
    options: &Options,
    count: u64,
    coded: &[u8],
    out: &mut [u64],
) -> Result<u64, Fault>
    ensures { FillsOne (IsFinding (settings_of options.now) (count_of count) coded.now) out.old
        out.new result }
{
    let params = params_of(options)?;
    offsets_into(alloc, &params, limits(), count_of(count), coded, out)
}
