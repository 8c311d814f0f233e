//! A program for tests: it makes most library calls that can run out of memory, and prints their
//! results and the state after them.
#![tactic(auto)]

mod bits;
mod blocks;
mod buffers;
mod codecs;
mod commands;
mod edits;
mod engines;
mod lists;
mod pieces;
mod readers;
mod runs;
mod streams;
mod trial;

use aec_params::Fault;
use std::process::ExitCode;

fn main(rt: HostRuntime) -> ExitCode {
    match try_all(&rt) {
        Ok(()) => ExitCode::SUCCESS,
        Err(fault) => {
            let _ = eprintln!(rt; "aec_memory_tests: {fault}");
            ExitCode::FAILURE
        }
    }
}

// Makes all calls. Fails if something that the calls need can't be made.
fn try_all(rt: &HostRuntime) -> Result<(), Fault> {
    let alloc = rt.alloc();
    bits::try_bits(rt, alloc)?;
    lists::try_lists(rt, alloc)?;
    codecs::try_codecs(rt, alloc)?;
    blocks::try_blocks(rt, alloc)?;
    streams::try_streams(rt, alloc)?;
    readers::try_readers(rt, alloc)?;
    pieces::try_pieces(rt, alloc)?;
    edits::try_edits(rt, alloc)?;
    engines::try_engines(rt, alloc)?;
    buffers::try_buffers(rt, alloc)?;
    commands::try_commands(rt, alloc)?;
    runs::try_runs(rt)
}
