//! Calls that write a block or a run of zero blocks.

ghost use Rattle.std.specs.Prelude.{◌<◌, ◌^◌};
ghost use Rattle.std.specs.Bool.{OnTrue};
ghost use Rattle.std.specs.List.{AllByRecursion};
ghost use Rattle.aec_block.specs.Choices.{FitsReference, IsFull};

use crate::trial::{Trial, print_bits, try_calls};
use aec_bits::BitBuf;
use aec_block::{Block, choose, write_block, write_run, write_shortest_of};
use aec_params::{Fault, Params, Settings};
use std::alloc::Global;

#[derive(Drop)]
struct Written {
    params: Params,
    block: Block,
    bits: BitBuf,
}

fn all_below(values: &[u32], limit: u64) -> bool
    ensures { OnTrue result (AllByRecursion (λ v. v < limit) values.now) }
{
    values.iter().all(|v| u64::from(*v) < limit)
}

// Returns whether a reference sample, if any, fits the bits per sample.
fn fits_reference(params: &Params, reference: Option<u32>) -> bool
    ensures { OnTrue result (FitsReference params.now reference) }
{
    match reference {
        None => true,
        Some(r) => u64::from(r) < 1 << params.bits(),
    }
}

// Returns whether a block is full and fits the settings.
fn is_full(params: &Params, block: &Block) -> bool
    ensures { OnTrue result (IsFull params.now block.now) }
{
    if block.len() != params.block_size() as usize {
        return false;
    }
    if !fits_reference(params, block.reference()) {
        return false;
    }
    all_below(block.values(), 1 << params.bits())
}

impl Trial for Written {
    fn call(&mut self, number: usize) -> Result<(), Fault> {
        if number == 1 {
            return write_run(&self.params, Some(0), 1, true, &mut self.bits);
        }
        if !is_full(&self.params, &self.block) {
            return Ok(());
        }
        if number == 2 {
            let values = self.block.values();
            if values.len() != 8 {
                return Ok(());
            }
            let reference = self.block.reference();
            return write_shortest_of::<8>(&self.params, reference, values, &mut self.bits);
        }
        let choice = choose(&self.params, &self.block);
        write_block(&self.params, &self.block, choice, &mut self.bits)
    }

    fn show<R: Print>(&self, rt: &R) {
        print_bits(rt, &self.bits);
    }
}

// Returns the block of the samples 0 to 7. The first one is the reference sample.
fn ramp(alloc: Global) -> Block {
    let mut block = Block::new(alloc, Some(0));
    for value in [1, 2, 2, 2, 2, 2, 2] {
        if block.len() < 64 {
            block.push(value);
        }
    }
    block
}

/// Makes each call with a list without room.
pub fn try_blocks<R: Print + Eprint>(rt: &R, alloc: Global) -> Result<(), Fault> {
    for call in [
        (0, "write_block"),
        (1, "write_run"),
        (2, "write_shortest_of"),
    ] {
        let mut written = Written {
            params: Params::new(Settings::USUAL)?,
            block: ramp(alloc),
            bits: BitBuf::new(alloc),
        };
        try_calls(rt, &[call], &mut written);
    }
    Ok(())
}
