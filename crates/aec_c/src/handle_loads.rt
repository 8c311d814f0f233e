//! Loads a handle with the samples of coded bytes.

ghost use Rattle.std.specs.Prelude.{◌≡◌, IfOk, IfErr};
ghost use Rattle.aec_c.specs.Calls.{settings_of, count_of};
ghost use Rattle.aec_c.specs.HandleLoads.{AreRead, CannotRead, Holds, CannotHold, Loads};

use crate::handle::Handle;
use crate::handle_reads::fresh_workspace;
use crate::kinds::{Open, OpenWorkspace};
use crate::options::{Options, count_of, settings_of};
use crate::reply::{Reply, answered, refused};
use aec_bits::BitBuf;
use aec_interval::decode_all;
use aec_params::{Fault, MAX_SAMPLES, Params};
use std::alloc::Global;

/// Returns the samples that coded bytes decode to.
fn reading(alloc: Global, options: &Options, count: u64, bytes: &[u8]) -> Result<Vec<i64>, Fault>
    ensures ok { IfOk result (λ v. AreRead (settings_of options.now) (count_of count)
        bytes.now v.items) }
    ensures refuses { IfErr result
        (λ e. CannotRead (settings_of options.now) (count_of count) bytes.now e) }
{
    let params = Params::new(settings_of(options))?;
    let bits = BitBuf::from_bytes(alloc, bytes)?;
    decode_all(alloc, &params, &bits, count_of(count), MAX_SAMPLES)
}

/// Returns a workspace with these samples.
fn workspace_with(alloc: Global, options: &Options, samples: &[i64]) -> Result<OpenWorkspace, Fault>
    ensures ok { IfOk result (λ work. Holds (settings_of options.now) samples.now work) }
    ensures refuses { IfErr result (λ e. CannotHold (settings_of options.now) samples.now e) }
{
    let mut work = fresh_workspace(alloc, options)?;
    match work.workspace.append(samples) {
        Ok(_) => Ok(work),
        Err(fault) => Err(fault),
    }
}

/// Replaces what a handle holds by a workspace with the samples of coded bytes.
pub(crate) fn load(
    alloc: Global,
    options: &Options,
    count: u64,
    bytes: &[u8],
    handle: &mut Handle,
) -> Reply
    ensures { Loads (settings_of options.now) (count_of count) bytes.now
        handle.old.value handle.new.value result }
{
    match reading(alloc, options, count, bytes) {
        Ok(samples) => match workspace_with(alloc, options, &samples) {
            Ok(work) => match handle.hold(alloc, Open::Workspace(work)) {
                Ok(()) => answered(samples.len() as u64),
                Err(fault) => refused(fault),
            },
            Err(fault) => refused(fault),
        },
        Err(fault) => refused(fault),
    }
}
