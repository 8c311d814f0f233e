//! The code of samples, with an index of its intervals.

use crate::index::replace_starts;
use aec_bits::BitBuf;
use aec_params::Fault;
use std::alloc::Global;

/// The code of samples: its bits, where its intervals begin in them, and the number of samples.
#[derive(Debug, Drop)]
pub(crate) struct Coded {
    pub(crate) bits: BitBuf,
    pub(crate) starts: Vec<u64>,
    pub(crate) count: u64,
}

/// Where an interval begins, or where the code ends: the interval's number and the bit.
#[derive(Clone, Copy, Debug, Drop)]
pub(crate) struct Cut {
    pub(crate) interval: u64,
    pub(crate) bit: u64,
}

impl Coded {
    ghost use Rattle.std.specs.Prelude.{◌≡◌, ◌+◌, ◌-◌, ◌*◌, ◌<◌, ◌≤◌, ◌⊎◌, length, vec_len, vec_capacity, OnOk, OnErr, IfErr};
    ghost use Rattle.aec_params.specs.declared.fault.Fault.TheVariants.{Memory};
    ghost use Rattle.aec_edit.specs.CodedLists.{IsNoCode, IsSameCode, HasRoomOf, HasRoomAtMost, KeepsRoom, CanBeReplaced, IsReplaced};

    /// Returns the code of no samples. Allocates nothing.
    pub(crate) fn new(alloc: Global) -> Coded
        ensures none { IsNoCode result }
        ensures room { HasRoomAtMost 0 0 result }
    {
        Coded {
            bits: BitBuf::new(alloc),
            starts: Vec::new(alloc),
            count: 0,
        }
    }

    /// Reserves room for `bits` more bits and for the starts of `intervals` more intervals. Room
    /// that was there is kept. Fails with `Memory` only if there is less room than asked for, and
    /// an allocation fails or there would be more than 2^62 bits.
    pub(crate) fn reserve(&mut self, bits: u64, intervals: u64) -> Result<(), Fault>
        ensures same { IsSameCode self.old self.new }
        ensures room { OnOk result (HasRoomOf bits intervals self.new) }
        ensures kept { KeepsRoom self.old self.new }
        ensures full { OnErr result ((self.old.bits.room < bits)
            ⊎ (vec_capacity self.old.starts - vec_len self.old.starts < intervals)) }
        ensures fault { IfErr result (λ e. (e ≡ Memory) × (0 < bits + intervals)) }
    {
        self.bits.reserve(bits)?;
        let intervals = usize::try_from(intervals).map_err(|_| Fault::Memory)?;
        self.starts.reserve(intervals)?;
        Ok(())
    }

    /// Empties the lists, and keeps their allocations. If they have room for more than `128 * most`
    /// bits or for more than `most` starts, frees both.
    pub(crate) fn emptied(mut self, alloc: Global, most: u64) -> Coded
        requires { most ≤ 524288 }
        ensures none { IsNoCode result }
        ensures room { HasRoomAtMost (128 * most) most result }
    {
        self.bits.truncate(0);
        self.starts.clear();
        self.count = 0;
        if self.bits.room() > 128 * most || self.starts.capacity() as u64 > most {
            return Coded::new(alloc);
        }
        self
    }

    /// Replaces the intervals between two cuts by those of other code, moves the starts after them,
    /// and sets the number of samples to `count`. Reserves all room before it changes the lists: if
    /// it fails with `Memory`, the code is the same, but its room may have changed.
    pub(crate) fn replace(
        &mut self,
        from: Cut,
        to: Cut,
        with: &Coded,
        count: u64,
    ) -> Result<(), Fault>
        requires { CanBeReplaced self.old with.now from to }
        ensures ok { OnOk result (IsReplaced self.old self.new with.now from to count) }
        ensures err { OnErr result (IsSameCode self.old self.new) }
        ensures fault { IfErr result (λ e. (e ≡ Memory)
            × (0 < length with.now.bits.list + length with.now.starts.items)) }
    {
        prove!(to.bit <= self.bits.len());
        let gained = with.bits.len().saturating_sub(to.bit - from.bit);
        let dropped = (to.interval - from.interval) as usize;
        self.bits.reserve(gained)?;
        self.starts
            .reserve(with.starts.len().saturating_sub(dropped))?;
        self.bits.splice(from.bit, to.bit, &with.bits).unwrap();
        let new_end = from.bit + with.bits.len();
        replace_starts(&mut self.starts, from, to, &with.starts, new_end);
        self.count = count;
        Ok(())
    }
}
