//! Samples read interval by interval by a reader that a handle holds.

ghost use Rattle.std.specs.Prelude.{◌≡◌, ◌*◌, ◌⊎◌, Some, None, IfOk, IfErr};
ghost use Rattle.aec_params.specs.declared.fault.Fault.TheVariants.{Memory};
ghost use Rattle.aec_params.specs.Params.{IsAllowed, interval_len, storage_len};
ghost use Rattle.aec_params.specs.Codewords.{bits_of_bytes};
ghost use Rattle.aec_params.specs.Limits.{most_samples};
ghost use Rattle.aec_interval.specs.Reached.{count_refusal};
ghost use Rattle.aec_c.specs.Calls.{settings_of, count_of};
ghost use Rattle.aec_c.specs.Kinds.{value_in, reader_in};
ghost use Rattle.aec_c.specs.HandleCalls.{OnHandle};
ghost use Rattle.aec_c.specs.Standing.{standing_at};
ghost use Rattle.aec_c.specs.Readers.{OpensReader, ReadsNext, PutsNext, GoesTo};

use crate::answers::params_of;
use crate::handle::Handle;
use crate::held_reader::HeldReader;
use crate::kinds::{Open, OpenReader};
use crate::options::{Options, count_of};
use crate::reply::{Reply, answered, not_open, refused, too_long};
use aec_params::{Fault, Params, put_samples};
use std::alloc::Global;

/// Returns a reader at the first bit of coded bytes.
fn fresh_reader(
    alloc: Global,
    params: Params,
    count: Option<u64>,
    coded: &[u8],
) -> Result<OpenReader, Fault>
    ensures ok { IfOk result (λ made. made.reader
        ≡ standing_at params count (bits_of_bytes coded.now) 0 0 0) }
    ensures refuses { IfErr result
        (λ fault. (fault ≡ Memory) ⊎ (count_refusal most_samples count ≡ Some fault)) }
{
    let reader = HeldReader::new(alloc, params, count, coded)?;
    let samples = Vec::with_capacity(alloc, params.interval_len() as usize)?;
    Ok(OpenReader { reader, samples })
}

/// Returns how many bytes the samples of a whole interval take.
fn interval_bytes(params: &Params) -> u64
    ensures { result ≡ interval_len params.now * storage_len params.now }
{
    params.interval_len() * params.storage() as u64
}

/// Replaces what a handle holds by a reader at the first bit of coded bytes.
pub(crate) fn open_reader(
    alloc: Global,
    options: &Options,
    count: u64,
    coded: &[u8],
    handle: &mut Handle,
) -> Reply
    ensures { OpensReader (settings_of options.now) (count_of count) coded.now
        handle.old.value handle.new.value result }
{
    let params = match params_of(options) {
        Ok(params) => params,
        Err(fault) => return refused(fault),
    };
    match fresh_reader(alloc, params, count_of(count), coded) {
        Ok(made) => match handle.hold(alloc, Open::Reader(made)) {
            Ok(()) => answered(interval_bytes(&params)),
            Err(fault) => refused(fault),
        },
        Err(fault) => refused(fault),
    }
}

/// Writes the stored samples of the next interval to a buffer with room for them, and goes on.
fn next_open(alloc: Global, made: &mut OpenReader, out: &mut [u8]) -> Reply
    ensures { ReadsNext made.old made.new out.old out.new result }
{
    let params = made.reader.params();
    let end = match made.reader.peek(alloc, &mut made.samples) {
        Ok(Some(end)) => end,
        Ok(None) => return answered(0),
        Err(fault) => return refused(fault),
    };
    let size = params.storage() * made.samples.len();
    if size > out.len() {
        return too_long(size as u64);
    }
    put_samples(&params, &made.samples, &mut out[..size]);
    made.reader.go_on(end, made.samples.len() as u64);
    answered(size as u64)
}

/// Goes to where an interval begins.
fn go_open(alloc: Global, made: &mut OpenReader, interval: u64) -> Reply
    ensures { GoesTo interval made.old made.new result }
{
    match made.reader.go_to(alloc, interval) {
        Ok(before) => answered(before),
        Err(fault) => refused(fault),
    }
}

/// Writes the stored samples of the next interval to a buffer, by the reader that a handle holds.
pub(crate) fn put_next(alloc: Global, inside: &mut Option<Box<Open>>, out: &mut [u8]) -> Reply
    ensures { PutsNext (value_in inside.old) (value_in inside.new) out.old out.new result }
{
    match inside {
        Some(held) => match &mut **held {
            Open::Reader(made) => next_open(alloc, made, out),
            _ => not_open(),
        },
        None => not_open(),
    }
}

/// Goes to where an interval begins, by the reader that a handle holds.
pub(crate) fn go_to(alloc: Global, inside: &mut Option<Box<Open>>, interval: u64) -> Reply
    ensures { OnHandle reader_in (GoesTo interval) (value_in inside.old) (value_in inside.new)
        result }
{
    match inside {
        Some(held) => match &mut **held {
            Open::Reader(made) => go_open(alloc, made, interval),
            _ => not_open(),
        },
        None => not_open(),
    }
}
