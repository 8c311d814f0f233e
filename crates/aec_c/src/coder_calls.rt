//! The calls from C on a coder that takes samples in pieces.

ghost use Rattle.std.specs.Prelude.{◌≡◌, None};
ghost use Rattle.aec_c.specs.Calls.{settings_of};
ghost use Rattle.aec_c.specs.Kinds.{coder_in};
ghost use Rattle.aec_c.specs.HandleCalls.{OnHandle};
ghost use Rattle.aec_c.specs.Coders.{OpensCoder, FeedsPiece, FinishesStream, TakesOut};

use crate::coders::{feed, finish, open_coder, take};
use crate::handle::Handle;
use crate::options::Options;
use crate::reply::Reply;
use std::alloc::Global;

/// Opens a coder that was fed nothing. On success what the handle held is freed, and `len` is 0; on
/// an error the handle is unchanged.
#[unsafe(no_mangle)]
pub extern "C" fn aecp_coder_open(
    alloc: Global,
    options: &Options,
    coder: &mut Handle,
    reply: &mut Reply,
) -> u32
    ensures opens { OpensCoder (settings_of options.now) coder.old.value coder.new.value reply.new }
    ensures number { result ≡ reply.new.fault }
{
    *reply = open_coder(alloc, options, coder);
    reply.fault
}

/// Takes a piece of stored samples, cut anywhere. Replies how many whole bytes of the code can be
/// taken now.
#[unsafe(no_mangle)]
pub extern "C" fn aecp_coder_feed(
    alloc: Global,
    coder: &mut Handle,
    samples: &[u8],
    reply: &mut Reply,
) -> u32
    ensures feeds { OnHandle coder_in (FeedsPiece samples.now) coder.old.value coder.new.value
        reply.new }
    ensures number { result ≡ reply.new.fault }
{
    let mut inside = coder.take(alloc);
    *reply = feed(&mut inside, samples);
    coder.put(inside);
    reply.fault
}

/// Ends the stream: no more samples are taken. Replies how many bytes can be taken; these are the
/// last.
#[unsafe(no_mangle)]
pub extern "C" fn aecp_coder_finish(alloc: Global, coder: &mut Handle, reply: &mut Reply) -> u32
    ensures finishes { OnHandle coder_in FinishesStream coder.old.value coder.new.value reply.new }
    ensures number { result ≡ reply.new.fault }
{
    let mut inside = coder.take(alloc);
    *reply = finish(&mut inside);
    coder.put(inside);
    reply.fault
}

/// Moves all whole bytes of the code that weren't taken yet into a buffer. Replies how many bytes
/// these are.
#[unsafe(no_mangle)]
pub extern "C" fn aecp_coder_take(
    alloc: Global,
    coder: &mut Handle,
    out: &mut [u8],
    reply: &mut Reply,
) -> u32
    ensures takes { TakesOut coder.old.value coder.new.value out.old out.new reply.new }
    ensures number { result ≡ reply.new.fault }
{
    let mut inside = coder.take(alloc);
    *reply = take(alloc, &mut inside, out);
    coder.put(inside);
    reply.fault
}

// bare: a wrong body would show no more than that of `aecp_close`
/// Frees what a handle holds.
#[unsafe(no_mangle)]
pub extern "C" fn aecp_coder_close(alloc: Global, coder: &mut Handle)
    ensures { coder.new.value ≡ None }
{
    let _freed = coder.take(alloc);
}
