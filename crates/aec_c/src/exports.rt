//! The calls from C that need no handle. `aecp.h` says the same to its reader.

ghost use Rattle.std.specs.Prelude.{◌≡◌};
ghost use Rattle.aec_c.specs.Calls.{settings_of, count_of, IsCoding, IsDecoding, IsRanging};
ghost use Rattle.aec_c.specs.Replies.{Replies};
ghost use Rattle.aec_c.specs.Bounds.{bound_of, Suffices};
ghost use Rattle.aec_c.specs.StreamEdits.{IsEditing, RepliesEdit};
ghost use Rattle.aec_c.specs.Texts.{PutsText};

use crate::answers::{Asked, decode_with, encode_with, range_with};
use crate::bound::bound_of;
use crate::options::Options;
use crate::reply::{Reply, reply_of};
use crate::stream_edits::{EditReply, edited_stream, settle_edited};
use crate::text::{put_text, text_of};
use std::alloc::Global;

// bare: it returns a constant
/// Returns the version of the library: 10,000 times its first number, plus 100 times its second,
/// plus its third.
#[unsafe(no_mangle)]
pub extern "C" fn aecp_version() -> u32
    ensures { result ≡ 10100 }
{
    10100
}

/// Codes stored samples. Replies how many bytes the code takes.
#[tactic(auto, using(crate::proofs::ReplyLemmas::replied))]
#[unsafe(no_mangle)]
pub extern "C" fn aecp_encode(
    alloc: Global,
    options: &Options,
    samples: &[u8],
    out: &mut [u8],
    reply: &mut Reply,
) -> u32
    ensures replies { Replies (IsCoding (settings_of options.now) samples.now) out.old out.new
        reply.new }
    ensures number { result ≡ reply.new.fault }
{
    let room = out.len();
    let answer = encode_with(alloc, options, samples, out);
    *reply = reply_of(answer, room);
    reply.fault
}

/// Decodes coded bytes: the first `count` samples, or all if `count` is 2^64 - 1. Replies how many
/// bytes the stored samples take.
#[tactic(auto, using(crate::proofs::ReplyLemmas::replied))]
#[unsafe(no_mangle)]
pub extern "C" fn aecp_decode(
    alloc: Global,
    options: &Options,
    count: u64,
    bytes: &[u8],
    out: &mut [u8],
    reply: &mut Reply,
) -> u32
    ensures replies { Replies (IsDecoding (settings_of options.now) (count_of count) bytes.now)
        out.old out.new reply.new }
    ensures number { result ≡ reply.new.fault }
{
    let room = out.len();
    let answer = decode_with(alloc, options, count, bytes, out);
    *reply = reply_of(answer, room);
    reply.fault
}

/// Decodes `len` samples from place `first` on. Replies how many bytes the stored samples take.
#[tactic(auto, using(crate::proofs::ReplyLemmas::replied))]
#[unsafe(no_mangle)]
pub extern "C" fn aecp_range(
    alloc: Global,
    options: &Options,
    count: u64,
    first: u64,
    len: u64,
    bytes: &[u8],
    out: &mut [u8],
    reply: &mut Reply,
) -> u32
    ensures replies { Replies
        (IsRanging (settings_of options.now) (count_of count) first len bytes.now) out.old out.new
        reply.new }
    ensures number { result ≡ reply.new.fault }
{
    let room = out.len();
    let asked = Asked { count, first, len };
    let answer = range_with(alloc, options, asked, bytes, out);
    *reply = reply_of(answer, room);
    reply.fault
}

/// Edits a stream by a script: codes the samples that the script leaves of the first `count`, or of
/// all if `count` is 2^64 - 1. Replies how many bytes the edited stream takes, and how many samples
/// it codes.
#[unsafe(no_mangle)]
pub extern "C" fn aecp_edit(
    alloc: Global,
    options: &Options,
    count: u64,
    script: &[u8],
    bytes: &[u8],
    out: &mut [u8],
    reply: &mut EditReply,
) -> u32
    ensures replies { RepliesEdit (settings_of options.now)
        (IsEditing (settings_of options.now) (count_of count) script.now bytes.now) out.old out.new
        reply.new }
    ensures number { result ≡ reply.new.reply.fault }
{
    let answer = edited_stream(alloc, options, count, script, bytes);
    *reply = settle_edited(answer, out);
    reply.reply.fault
}

/// Returns how many bytes always suffice for the code of this many samples; 0 if they are none or
/// more than `MAX_SAMPLES`, or if the options are refused.
#[unsafe(no_mangle)]
pub extern "C" fn aecp_bound(options: &Options, samples: u64) -> u64
    ensures number { result ≡ bound_of (settings_of options.now) samples }
    ensures suffices { Suffices (settings_of options.now) samples result }
{
    bound_of(options, samples)
}

/// Writes to a buffer as much of a reply's text as fits before a zero, and the zero after it.
/// Returns the text's length.
#[unsafe(no_mangle)]
pub extern "C" fn aecp_text(alloc: Global, reply: &Reply, out: &mut [u8]) -> usize
    ensures { PutsText out.old out.new result }
{
    match text_of(alloc, reply) {
        Ok(text) => put_text(text.as_bytes(), out),
        Err(_) => put_text("out of memory".as_bytes(), out),
    }
}
