//! Codes fresh samples one interval at a time, in lists that each edit keeps for the next.

ghost use Rattle.std.specs.Prelude.{◌≡◌, ◌<◌, ◌≤◌, [], length, drop, OnOk, IfErr, ◌*◌, vec_capacity};
ghost use Rattle.aec_params.specs.declared.fault.Fault.TheVariants.{Memory};
ghost use Rattle.aec_edit.specs.Coming.{MovesToFront, KeepsEnds};
ghost use Rattle.aec_edit.specs.Workspace.{IsScratchRoom};

use super::Workspace;
use crate::coded::Coded;
use aec_bits::Codec;
use aec_params::Fault;
use std::alloc::Global;
use std::mem;

/// Samples that are to be coded: `front`, the values, `back`, and then the samples of the old
/// intervals from number `next` up to number `end`, which aren't decoded yet.
#[derive(Debug, Drop)]
pub(crate) struct Fresh<'a> {
    pub(crate) front: Vec<i64>,
    pub(crate) values: &'a [i64],
    pub(crate) back: Vec<i64>,
    pub(crate) next: u64,
    pub(crate) end: u64,
}

impl<'a> Fresh<'a> {
    /// Keeps the first `head` and the last `tail` samples of `front`, with the values between them.
    /// If there are as many values as samples between, the values overwrite these samples;
    /// otherwise the last samples move to `back`. Fails with `Memory` if an allocation fails.
    pub(crate) fn keep_ends(&mut self, head: usize, tail: usize) -> Result<(), Fault>
        requires { tail ≤ length self.old.front.items }
        ensures ok { OnOk result (KeepsEnds head tail self.old self.new) }
        ensures fault { IfErr result (λ e. (e ≡ Memory) × (0 < tail)) }
    {
        let end = self.front.len() - tail;
        self.back.clear();
        if head <= end && self.values.len() == end - head {
            self.front[head..end].copy_from_slice(self.values);
            self.values = &[];
            return Ok(());
        }
        self.back.extend_from_slice(&self.front[end..])?;
        self.front.truncate(head);
        Ok(())
    }

    /// Moves values, and then samples of `back`, to `front`, until it contains a whole interval or
    /// both are empty. Fails with `Memory` if an allocation fails.
    pub(crate) fn gather_held(&mut self, most: usize) -> Result<(), Fault>
        ensures ok { OnOk result (MovesToFront most self.old self.new) }
        ensures fault { IfErr result (λ e. e ≡ Memory) }
    {
        let some = most.saturating_sub(self.front.len()).min(self.values.len());
        let (now, later) = self.values.split_at(some);
        self.front.extend_from_slice(now)?;
        self.values = later;
        if self.values.is_empty() && self.front.len() < most {
            self.front.extend_from_slice(&self.back)?;
            self.back.truncate(0);
        }
        Ok(())
    }
}

/// Removes the first `len` items.
fn drop_front(items: &mut Vec<i64>, len: usize)
    requires { len ≤ length items.old.items }
    ensures { items.new.items ≡ drop len items.old.items }
{
    let count = items.len();
    items.copy_within(len..count, 0);
    items.truncate(count - len);
}

/// Empty lists for the fresh samples before and after the values, and for their code. After an
/// accepted edit they keep its room; after a refusal with `Memory` they may have none.
#[derive(Debug, Drop)]
pub(crate) struct Scratch {
    pub(crate) front: Vec<i64>,
    pub(crate) back: Vec<i64>,
    pub(crate) coded: Coded,
    ghost no_front: { front.items ≡ [] },
    ghost no_back: { back.items ≡ [] },
    ghost no_bits: { coded.bits.list ≡ [] },
    ghost no_starts: { coded.starts.items ≡ [] },
    ghost no_count: { coded.count ≡ 0 },
}

impl Scratch {
    /// Returns lists without room. Allocates nothing.
    pub(crate) fn new(alloc: Global) -> Scratch
        ensures { IsScratchRoom 0 (vec_capacity result.front) (vec_capacity result.back)
            result.coded.bits.room (vec_capacity result.coded.starts) }
    {
        Scratch {
            front: Vec::new(alloc),
            back: Vec::new(alloc),
            coded: Coded::new(alloc),
        }
    }

    /// Returns these lists, emptied. Frees those with more room than edits of two intervals of
    /// `most` samples need.
    pub(crate) fn of(
        alloc: Global,
        front: Vec<i64>,
        back: Vec<i64>,
        coded: Coded,
        most: usize,
    ) -> Scratch
        requires { most ≤ 262144 }
        ensures room { IsScratchRoom most (vec_capacity result.front) (vec_capacity result.back)
            result.coded.bits.room (vec_capacity result.coded.starts) }
    {
        Scratch {
            front: emptied(alloc, front, 2 * most),
            back: emptied(alloc, back, most),
            coded: coded.emptied(alloc, 2 * most as u64),
        }
    }
}

/// Empties the list, and keeps its allocation. If it has room for more than `most` items, frees it.
fn emptied(alloc: Global, mut items: Vec<i64>, most: usize) -> Vec<i64>
    ensures items { result.items ≡ [] }
    ensures capacity { vec_capacity result ≤ most }
{
    if items.capacity() > most {
        return Vec::new(alloc);
    }
    items.clear();
    items
}

impl<C: Codec> Workspace<C> {
    ghost use Rattle.std.specs.Prelude.{◌≡◌, ◌+◌, ◌-◌, ◌^◌, ◌<◌, ◌≤◌, [], IfOk, OnOk, IfErr};
    ghost use Rattle.std.specs.Int.{div_ceil};
    ghost use Rattle.aec_params.specs.declared.fault.Fault.TheVariants.{Memory};
    ghost use Rattle.aec_edit.specs.CodedLists.{IsNoCode};
    ghost use Rattle.aec_edit.specs.Fresh.{IsGathered};
    ghost use Rattle.aec_edit.specs.Coming.{coming, HasOldPart, Gathers, HasNext, CodesNext, CanBeCoded, CodesFresh};
    ghost use Rattle.aec_edit.specs.Unchanged.{KeepsSamples, IsOnlyRead};

    /// Moves the next interval of fresh samples to `front`. Fails with `Memory` if an allocation
    /// fails.
    fn gather(&mut self, fresh: &mut Fresh<'_>) -> Result<(), Fault>
        requires { HasOldPart C.format self.old fresh.old }
        ensures ok { OnOk result (Gathers C.format C.read self.old self.new fresh.old fresh.new) }
        ensures gathered { OnOk result (IsGathered (C.format self.old.codec).most
            fresh.new.front.items (coming C.format self.old fresh.new)) }
        ensures fault { IfErr result (λ e. e ≡ Memory) }
        ensures read { IsOnlyRead C.format C.called C.read (fresh.old.end - fresh.old.next)
            self.old self.new }
    {
        let interval_len = self.interval_len();
        fresh.gather_held(interval_len as usize)?;
        if (fresh.front.len() as u64) < interval_len && fresh.next < fresh.end {
            let i = fresh.next;
            fresh.next = i + 1;
            self.decode_interval(i, &mut fresh.front)?;
        }
        Ok(())
    }

    /// Codes the next interval of fresh samples, and appends its code. An interval that lies whole
    /// in the values is coded from there; any other is moved to `front`. Fails with `Memory` if an
    /// allocation fails; the codec may have been called by then.
    fn code_next(&mut self, fresh: &mut Fresh<'_>, coded: &mut Coded) -> Result<(), Fault>
        requires { HasNext C.format C.called self.old fresh.old }
        ensures ok { OnOk result (CodesNext C.format C.called C.read self.old self.new
            fresh.old fresh.new coded.old coded.new) }
        ensures fault { IfErr result (λ e. e ≡ Memory) }
        ensures same { KeepsSamples C.format C.called C.read 1 (fresh.old.end - fresh.old.next)
            self.old self.new }
    {
        let interval_len = self.interval_len() as usize;
        coded.starts.push(coded.bits.len())?;
        if fresh.front.is_empty() && fresh.values.len() >= interval_len {
            let (interval, later) = fresh.values.split_at(interval_len);
            fresh.values = later;
            return self.codec.code(interval, &mut coded.bits);
        }
        self.gather(fresh)?;
        let len = interval_len.min(fresh.front.len());
        self.codec.code(&fresh.front[..len], &mut coded.bits)?;
        drop_front(&mut fresh.front, len);
        Ok(())
    }

    /// Codes `count` fresh samples. Fails with `Memory` if an allocation fails; some calls may have
    /// been made by then.
    pub(crate) fn code_fresh(&mut self, fresh: &mut Fresh<'_>, count: u64) -> Result<Coded, Fault>
        requires fresh { CanBeCoded C.format self.old fresh.old count }
        requires calls { C.called self.old.codec + div_ceil count (C.format self.old.codec).most
            ≤ 2 ^ 64 - 1 }
        ensures ok { IfOk result (CodesFresh C.format C.called self.old self.new fresh.old count) }
        ensures fault { IfErr result (λ e. (e ≡ Memory) × (0 < count)) }
        ensures same { KeepsSamples C.format C.called C.read
            (div_ceil count (C.format self.old.codec).most) (fresh.old.end - fresh.old.next)
            self.old self.new }
    {
        let interval_len = self.interval_len();
        let mut coded = self.take_coded();
        let mut left = count;
        while left > 0 {
            self.code_next(fresh, &mut coded)?;
            left = left.saturating_sub(interval_len);
        }
        coded.count = count;
        Ok(coded)
    }

    /// Takes out the empty lists for the samples before and after the values, with the room that
    /// the last edit left.
    pub(crate) fn take_lists(&mut self) -> (Vec<i64>, Vec<i64>)
        ensures empty { (result.0.items ≡ []) × (result.1.items ≡ []) }
        ensures same { self.new ≡ self.old }
    {
        let alloc = self.alloc;
        let Scratch {
            front,
            back,
            coded,
            ..
        } = mem::replace(&mut self.scratch, Scratch::new(alloc));
        self.scratch.coded = coded;
        (front, back)
    }

    /// Takes out the empty code, with the room that the last edit left.
    fn take_coded(&mut self) -> Coded
        ensures none { IsNoCode result }
        ensures same { self.new ≡ self.old }
    {
        let empty = Coded::new(self.alloc);
        mem::replace(&mut self.scratch.coded, empty)
    }

    /// Keeps the lists of an edit for the next one.
    pub(crate) fn keep_lists(&mut self, fresh: Fresh<'_>, coded: Coded)
        ensures same { self.new ≡ self.old }
    {
        let interval_len = self.interval_len() as usize;
        let Fresh { front, back, .. } = fresh;
        self.scratch = Scratch::of(self.alloc, front, back, coded, interval_len);
    }
}
