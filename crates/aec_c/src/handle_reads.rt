//! Opens a handle, and reads from the workspace that it holds.

ghost use Rattle.std.specs.Prelude.{◌≡◌, IfOk, IfErr};
ghost use Rattle.aec_params.specs.declared.fault.Fault.TheVariants.{Memory};
ghost use Rattle.aec_params.specs.Codewords.{bytes_of};
ghost use Rattle.aec_bits.specs.Codec.{code_of};
ghost use Rattle.aec_c.specs.Calls.{settings_of, CannotBegin};
ghost use Rattle.aec_c.specs.Kinds.{value_in, workspace_in};
ghost use Rattle.aec_c.specs.HandleCalls.{format_of};
ghost use Rattle.aec_c.specs.HandleReads.{IsFresh, Opens, size_in, calls_in, WritesOut, ReadsOut};

use crate::handle::Handle;
use crate::kinds::{Open, OpenWorkspace};
use crate::options::{Options, settings_of};
use crate::reply::{Reply, answered, not_open, refused};
use crate::settling::settle;
use aec_bits::WriteSink;
use aec_edit::Workspace;
use aec_interval::AecCodec;
use aec_params::{Fault, MAX_SAMPLES, Params};
use std::alloc::Global;

/// Returns an empty workspace.
pub(crate) fn fresh_workspace(alloc: Global, options: &Options) -> Result<OpenWorkspace, Fault>
    ensures ok { IfOk result (λ work. IsFresh (settings_of options.now) work) }
    ensures refuses { IfErr result
        (λ fault. CannotBegin (settings_of options.now) fault) }
{
    let params = Params::new(settings_of(options))?;
    let workspace = Workspace::new(alloc, AecCodec::new(alloc, params), MAX_SAMPLES);
    Ok(OpenWorkspace { workspace })
}

/// Replaces what a handle holds by an empty workspace.
pub(crate) fn open_workspace(alloc: Global, options: &Options, handle: &mut Handle) -> Reply
    ensures { Opens (settings_of options.now) handle.old.value handle.new.value result }
{
    match fresh_workspace(alloc, options) {
        Ok(work) => match handle.hold(alloc, Open::Workspace(work)) {
            Ok(()) => answered(0),
            Err(fault) => refused(fault),
        },
        Err(fault) => refused(fault),
    }
}

/// Returns the number of samples.
pub(crate) fn sample_count(inside: &Option<Box<Open>>) -> u64
    ensures { result ≡ size_in (workspace_in (value_in inside.now)) }
{
    match inside {
        Some(held) => match &**held {
            Open::Workspace(work) => work.workspace.count(),
            _ => 0,
        },
        None => 0,
    }
}

/// Returns how many intervals the coder has coded.
pub(crate) fn call_count(inside: &Option<Box<Open>>) -> u64
    ensures { result ≡ calls_in (workspace_in (value_in inside.now)) }
{
    match inside {
        Some(held) => match &**held {
            Open::Workspace(work) => work.workspace.calls(),
            _ => 0,
        },
        None => 0,
    }
}

/// Returns the bytes of the code of a workspace's samples.
fn code_bytes(alloc: Global, work: &OpenWorkspace) -> Result<Vec<u8>, Fault>
    ensures ok { IfOk result (λ bytes. bytes.items ≡ bytes_of
        (code_of (format_of work.now) work.now.workspace.samples)) }
    ensures fault { IfErr result (λ fault. fault ≡ Memory) }
{
    let mut sink = WriteSink::new(Vec::new(alloc));
    match work.workspace.write_to(&mut sink) {
        Ok(()) => Ok(sink.into_inner()),
        Err(_) => Err(Fault::Memory),
    }
}

/// Writes the bytes of the code of all samples to a buffer.
pub(crate) fn write_code(alloc: Global, inside: &Option<Box<Open>>, out: &mut [u8]) -> Reply
    ensures { WritesOut (value_in inside.now) (value_in inside.now) out.old out.new result }
{
    match inside {
        Some(held) => match &**held {
            Open::Workspace(work) => settle(code_bytes(alloc, work), out),
            _ => not_open(),
        },
        None => not_open(),
    }
}

/// Writes the `len` samples from place `first` on to a buffer.
pub(crate) fn read_range(
    alloc: Global,
    inside: &mut Option<Box<Open>>,
    first: u64,
    len: u64,
    out: &mut [i64],
) -> Reply
    ensures { ReadsOut first len (value_in inside.old) (value_in inside.new)
        out.old out.new result }
{
    match inside {
        Some(held) => match &mut **held {
            Open::Workspace(work) => settle(work.workspace.range(alloc, first, len), out),
            _ => not_open(),
        },
        None => not_open(),
    }
}
