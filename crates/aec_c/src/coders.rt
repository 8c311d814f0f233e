//! Samples coded in pieces by a coder that a handle holds.

ghost use Rattle.std.specs.Prelude.{◌≡◌, ◌≤◌, [], None, Some, Option, ◌/◌, length, drop, IfOk, IfErr};
ghost use Rattle.aec_params.specs.declared.fault.Fault.TheVariants.{Memory};
ghost use Rattle.aec_params.specs.Params.{IsAllowed};
ghost use Rattle.aec_params.specs.Codewords.{bytes_of};
ghost use Rattle.aec_params.specs.Limits.{most_samples};
ghost use Rattle.aec_interval.specs.Feeding.{fresh_coder};
ghost use Rattle.aec_c.specs.Calls.{settings_of, CannotBegin};
ghost use Rattle.aec_c.specs.Kinds.{value_in, coder_in};
ghost use Rattle.aec_c.specs.HandleCalls.{OnHandle};
ghost use Rattle.aec_c.specs.Coders.{OpensCoder, FeedsPiece, FinishesStream, TakesBytes, TakesOut};

use crate::answers::params_of;
use crate::handle::Handle;
use crate::kinds::{Open, OpenCoder};
use crate::options::Options;
use crate::reply::{Reply, answered, not_open, refused};
use crate::settling::settle_slice;
use aec_bits::{BitBuf, WriteSink};
use aec_interval::StreamCoder;
use aec_params::{Fault, MAX_SAMPLES};
use std::alloc::Global;
use std::mem;

/// Returns a coder that was fed nothing.
fn fresh_coder(alloc: Global, options: &Options) -> Result<OpenCoder, Fault>
    ensures ok { IfOk result (λ made. (IsAllowed (settings_of options.now))
        × (made.coder ≡ Some (fresh_coder (settings_of options.now) most_samples))
        × (made.bits.list ≡ [])) }
    ensures refuses { IfErr result
        (λ fault. CannotBegin (settings_of options.now) fault) }
{
    let params = params_of(options)?;
    let coder = Some(StreamCoder::new(alloc, params, MAX_SAMPLES));
    let bits = BitBuf::new(alloc);
    Ok(OpenCoder { coder, bits })
}

/// Replaces what a handle holds by a coder that was fed nothing.
pub(crate) fn open_coder(alloc: Global, options: &Options, handle: &mut Handle) -> Reply
    ensures { OpensCoder (settings_of options.now) handle.old.value handle.new.value result }
{
    match fresh_coder(alloc, options) {
        Ok(made) => match handle.hold(alloc, Open::Coder(made)) {
            Ok(()) => answered(0),
            Err(fault) => refused(fault),
        },
        Err(fault) => refused(fault),
    }
}

/// Returns how many whole bytes bits fill.
fn whole_bytes(bits: &BitBuf) -> u64
    ensures { result ≡ length bits.now.list / 8 }
{
    bits.len() / 8
}

/// Takes a piece of stored samples.
fn feed_open(made: &mut OpenCoder, piece: &[u8]) -> Reply
    ensures { FeedsPiece piece.now made.old made.new result }
{
    let Some(mut coder) = mem::replace(&mut made.coder, None) else {
        return not_open();
    };
    let answer = coder.feed(piece, &mut made.bits);
    made.coder = Some(coder);
    match answer {
        Ok(()) => answered(whole_bytes(&made.bits)),
        Err(fault) => refused(fault),
    }
}

/// Ends the stream.
fn finish_open(made: &mut OpenCoder) -> Reply
    ensures { FinishesStream made.old made.new result }
{
    let Some(coder) = mem::replace(&mut made.coder, None) else {
        return not_open();
    };
    match coder.finish(&mut made.bits) {
        Ok(()) => {
            made.bits.pad_to_byte().unwrap();
            answered(whole_bytes(&made.bits))
        }
        Err(fault) => refused(fault),
    }
}

/// Returns the bytes that bits fill.
fn bytes_in(alloc: Global, bits: &BitBuf) -> Result<Vec<u8>, Fault>
    ensures ok { IfOk result (λ bytes. bytes.items ≡ bytes_of bits.now.list) }
    ensures fault { IfErr result (λ fault. fault ≡ Memory) }
{
    let mut sink = WriteSink::new(Vec::new(alloc));
    match bits.write_to(&mut sink) {
        Ok(()) => Ok(sink.into_inner()),
        Err(_) => Err(Fault::Memory),
    }
}

/// Removes the first `len` bits. Allocates nothing.
fn remove_front(alloc: Global, bits: &mut BitBuf, len: u64)
    requires { len ≤ length bits.old.list }
    ensures { bits.new.list ≡ drop len bits.old.list }
{
    let none = BitBuf::new(alloc);
    bits.splice(0, len, &none).unwrap();
}

/// Moves the whole bytes of the code into a buffer if there is room for all of them.
fn take_open(alloc: Global, made: &mut OpenCoder, out: &mut [u8]) -> Reply
    ensures { TakesBytes made.old made.new out.old out.new result }
{
    let Ok(bytes) = bytes_in(alloc, &made.bits) else {
        return refused(Fault::Memory);
    };
    let ready = made.bits.len() / 8;
    let room = out.len() as u64;
    let reply = settle_slice(&bytes[..ready as usize], out);
    if ready <= room {
        remove_front(alloc, &mut made.bits, 8 * ready);
    }
    reply
}

/// Feeds a piece of stored samples to the coder that a handle holds.
pub(crate) fn feed(inside: &mut Option<Box<Open>>, piece: &[u8]) -> Reply
    ensures { OnHandle coder_in (FeedsPiece piece.now) (value_in inside.old) (value_in inside.new)
        result }
{
    match inside {
        Some(held) => match &mut **held {
            Open::Coder(made) => feed_open(made, piece),
            _ => not_open(),
        },
        None => not_open(),
    }
}

/// Ends the stream of the coder that a handle holds.
pub(crate) fn finish(inside: &mut Option<Box<Open>>) -> Reply
    ensures { OnHandle coder_in FinishesStream (value_in inside.old) (value_in inside.new) result }
{
    match inside {
        Some(held) => match &mut **held {
            Open::Coder(made) => finish_open(made),
            _ => not_open(),
        },
        None => not_open(),
    }
}

/// Moves the whole bytes of a coder's code into a buffer, as `take_open` does.
pub(crate) fn take(alloc: Global, inside: &mut Option<Box<Open>>, out: &mut [u8]) -> Reply
    ensures { TakesOut (value_in inside.old) (value_in inside.new) out.old out.new result }
{
    match inside {
        Some(held) => match &mut **held {
            Open::Coder(made) => take_open(alloc, made, out),
            _ => not_open(),
        },
        None => not_open(),
    }
}
