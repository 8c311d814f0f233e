//! The mapped values of one block.

use smallvec::SmallVec;
use std::alloc::Global;
use std::marker::Model;

/// The greatest number of values in a block.
pub const MOST_VALUES: usize = 64;

/// A block of at most 64 mapped values, and the reference sample's pattern if it has one. The first
/// value is then 0 (the reference place). The values are stored in the block itself, so no call
/// allocates.
#[derive(Debug, Drop)]
pub struct Block {
    reference: Option<u32>,
    pub(crate) values: SmallVec<u32, MOST_VALUES>,
}

ghost use Rattle.std.specs.Prelude.{◌≡◌, ◌≤◌, [], length};
ghost use Rattle.aec_params.specs.Places.{placed_values};
ghost use Rattle.aec_block.specs.BlockShape.{most_values};

/// Returns the number of values in the reference place, 0 or 1.
pub(crate) fn reference_places(reference: Option<u32>) -> usize
    ensures value { result ≡ length (placed_values reference []) }
    ensures most { result ≤ 1 }
{
    usize::from(reference.is_some())
}

/// The values of a block of zeros, which are copied faster than they are pushed.
static ZEROS: [u32; MOST_VALUES] = [0; MOST_VALUES];

/// Replaces the values by `len` zeros. The clauses say only how many values there are.
fn put_zeros(values: &mut SmallVec<u32, MOST_VALUES>, len: usize)
    requires most { len ≤ most_values }
    requires room { values.old.capacity ≡ most_values }
    ensures len { length values.new.items ≡ len }
    ensures room { values.new.capacity ≡ most_values }
{
    values.clear();
    values.extend_from_slice(&ZEROS[..len]).unwrap();
}

impl Model for Block {
    ghost use Rattle.std.specs.Prelude.{◌≡◌};
    ghost use Rattle.aec_params.specs.Blocks.{Block as Values};
    ghost use Rattle.aec_block.specs.BlockShape.{most_values, IsSound};

    ghost Value = { Values };

    ghost view = { λ b. record { reference = b.reference; values = b.values.items } };

    ghost invariant = { λ b. (b.values.capacity ≡ most_values)
        × IsSound (record { reference = b.reference; values = b.values.items }) };
}

impl Block {
    ghost use Rattle.std.specs.Prelude.{◌≡◌, ◌<◌, ◌≤◌, [], ◌∷◌, ◌++◌, length};
    ghost use Rattle.aec_params.specs.Blocks.{Block as Values, is_zero_block};
    ghost use Rattle.aec_params.specs.Places.{placed_values};
    ghost use Rattle.aec_params.specs.Spellings.{written_values};
    ghost use Rattle.aec_block.specs.BlockShape.{most_values, IsSound};

    /// Returns a block with no values, except the 0 in the reference place if there is a reference.
    pub fn new(alloc: Global, reference: Option<u32>) -> Block
        ensures reference { result.reference ≡ reference }
        ensures values { result.values ≡ placed_values reference [] }
    {
        let mut values = SmallVec::new(alloc);
        if reference.is_some() {
            values.push_reserved(0);
        }
        Block { reference, values }
    }

    /// Restarts the block with `len` values. If there is a reference, the value in its place is 0.
    /// The other values are unspecified.
    #[inline(always)]
    pub(crate) fn restart(&mut self, reference: Option<u32>, len: usize)
        requires most { len ≤ most_values }
        requires place { length (placed_values reference []) ≤ len }
        ensures reference { self.new.reference ≡ reference }
        ensures len { length self.new.values ≡ len }
    {
        self.reference = reference;
        if self.values.len() != len {
            put_zeros(&mut self.values, len);
        }
        if reference.is_some() {
            self.values.as_mut_slice()[0] = 0;
        }
    }

    /// Appends a value.
    pub fn push(&mut self, m: u32)
        requires { length self.old.values < most_values }
        ensures { self.new ≡ record self.old { values = self.old.values ++ m ∷ [] } }
    {
        self.values.push_reserved(m);
    }

    // bare: it returns the length of a field
    /// Returns the number of values, including the one in the reference place.
    pub fn len(&self) -> usize
        ensures value { result ≡ length self.now.values }
        ensures sound { IsSound self.now }
    {
        self.values.len()
    }

    // bare: it returns a field
    /// Returns the values, including the one in the reference place.
    pub fn values(&self) -> &[u32]
        ensures value { result.now ≡ self.now.values }
        ensures sound { IsSound self.now }
    {
        self.values.as_slice()
    }

    // bare: it returns a field
    /// Returns the pattern of the reference sample, if the block has one.
    pub fn reference(&self) -> Option<u32>
        ensures value { result ≡ self.now.reference }
        ensures sound { IsSound self.now }
    {
        self.reference
    }

    /// Borrows the block.
    #[inline(always)]
    pub(crate) fn view(&self) -> BlockRef<'_>
        ensures { result ≡ self.now }
    {
        BlockRef::new(self.reference(), self.values())
    }

    /// Returns whether all values are 0.
    pub fn is_zero(&self) -> bool
        ensures { result ≡ is_zero_block self.now }
    {
        self.values.as_slice().iter().all(|v| *v == 0)
    }
}

/// The reference and the values of a block, wherever they lie.
#[derive(Debug, Drop)]
pub(crate) struct BlockRef<'a> {
    reference: Option<u32>,
    values: &'a [u32],
}

impl<'a> Model for BlockRef<'a> {
    ghost use Rattle.aec_params.specs.Blocks.{Block as Values};
    ghost use Rattle.aec_block.specs.BlockShape.{block_with, IsSound};

    ghost Value = { Values };

    ghost view = { λ b. block_with b.reference b.values.now };

    ghost invariant = { λ b. IsSound (block_with b.reference b.values.now) };
}

impl<'a> BlockRef<'a> {
    ghost use Rattle.std.specs.Prelude.{◌≡◌, ◌≤◌, length};
    ghost use Rattle.aec_params.specs.Spellings.{written_values};
    ghost use Rattle.aec_block.specs.BlockShape.{block_with, most_values, IsSound};

    /// Returns the block of a reference, if there is one, and of values with the one in the
    /// reference place.
    #[inline(always)]
    pub(crate) fn new(reference: Option<u32>, values: &'a [u32]) -> BlockRef<'a>
        requires { IsSound (block_with reference values.now) }
        ensures { result ≡ block_with reference values.now }
    {
        BlockRef { reference, values }
    }

    /// Returns the values, including the one in the reference place.
    #[inline(always)]
    pub(crate) fn values(&self) -> &'a [u32]
        ensures value { result.now ≡ self.now.values }
        ensures sound { IsSound self.now }
    {
        self.values
    }

    /// Returns the pattern of the reference sample, if the block has one.
    #[inline(always)]
    pub(crate) fn reference(&self) -> Option<u32>
        ensures value { result ≡ self.now.reference }
        ensures sound { IsSound self.now }
    {
        self.reference
    }

    /// Returns the values that are written one by one: those after the reference place, if there is
    /// one.
    #[inline(always)]
    #[tactic(auto, using(crate::proofs::BlockLemmas::some_values))]
    pub(crate) fn written(&self) -> &'a [u32]
        ensures value { result.now ≡ written_values self.now }
        ensures len { length result.now ≤ most_values }
    {
        match self.reference {
            None => self.values,
            Some(_) => &self.values[1..],
        }
    }
}
