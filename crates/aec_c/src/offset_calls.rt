//! The calls from C on the bits where the intervals of a stream begin.

ghost use Rattle.std.specs.Prelude.{◌≡◌};
ghost use Rattle.aec_c.specs.Calls.{settings_of, count_of};
ghost use Rattle.aec_c.specs.Replies.{Replies};
ghost use Rattle.aec_c.specs.OffsetCalls.{DecodesAt, IsFinding};

use crate::offsets::{decode_from_bit, offsets_with};
use crate::options::Options;
use crate::reply::{Reply, reply_of};
use std::alloc::Global;

/// Decodes coded bytes from bit `bit` on: `count` samples, or all if `count` is 2^64 - 1. Replies
/// how many bytes the stored samples take.
#[unsafe(no_mangle)]
pub extern "C" fn aecp_decode_at(
    alloc: Global,
    options: &Options,
    bit: u64,
    count: u64,
    coded: &[u8],
    out: &mut [u8],
    reply: &mut Reply,
) -> u32
    ensures decodes { DecodesAt (settings_of options.now) bit (count_of count) coded.now out.old
        out.new reply.new }
    ensures number { result ≡ reply.new.fault }
{
    *reply = decode_from_bit(alloc, options, bit, count, coded, out);
    reply.fault
}

/// Finds the bit where each interval of the first `count` samples begins, or of all if `count` is
/// 2^64 - 1. Replies how many intervals these are.
#[tactic(auto, using(crate::proofs::ReplyLemmas::replied))]
#[unsafe(no_mangle)]
pub extern "C" fn aecp_offsets(
    alloc: Global,
    options: &Options,
    count: u64,
    coded: &[u8],
    out: &mut [u64],
    reply: &mut Reply,
) -> u32
    ensures replies { Replies (IsFinding (settings_of options.now) (count_of count) coded.now)
        out.old out.new reply.new }
    ensures number { result ≡ reply.new.fault }
{
    let room = out.len();
    let answer = offsets_with(alloc, options, count, coded, out);
    *reply = reply_of(answer, room);
    reply.fault
}
