//! What one coded data set decodes to.

use crate::block::Block;

/// The number of zero blocks in a run.
#[derive(Clone, Copy, Debug, PartialEq, Eq)]
pub enum RunLen {
    /// This number of blocks.
    Blocks(u64),
    /// All blocks that the segment has left: the remainder code.
    Rest,
}

/// What a coded data set decodes to: one block, or a run of zero blocks.
#[derive(Debug, Drop)]
pub enum Cds {
    /// One block, by any option.
    Single(Block),
    /// A run of zero blocks; the first has the reference sample if there is one.
    Zeros { reference: Option<u32>, len: RunLen },
}

/// What a coded data set that was read into a block decodes to.
#[derive(Clone, Copy, Debug, PartialEq, Eq)]
pub enum Found {
    /// One block, by any option: the block that was passed to the call.
    Single,
    /// A run of zero blocks; the first has the reference sample if there is one. The contents of
    /// the block that was passed to the call are unspecified.
    Zeros { reference: Option<u32>, len: RunLen },
}

impl Found {
    ghost use Rattle.std.specs.Prelude.{◌≡◌};
    ghost use Rattle.aec_params.specs.Blocks.{Block as Values};
    ghost use Rattle.aec_block.specs.ReadCds.{as_cds};
    ghost use Rattle.aec_block.specs.SkipCds.{read_len};

    /// Returns how many blocks the coded data set decodes to.
    pub fn stands_for(self) -> RunLen
        ensures { (values : Values) → result ≡ read_len (as_cds self values) }
    {
        match self {
            Found::Single => RunLen::Blocks(1),
            Found::Zeros { len, .. } => len,
        }
    }
}
