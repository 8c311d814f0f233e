//! Judges a list of edits before any of them is applied.

use crate::outcome::Stop;
use crate::workspace::Workspace;
use aec_bits::Codec;
use aec_params::{Edit, Fault};

/// An edit that fits, as an exchange: the places from `first` up to `stop` are exchanged for the
/// values. It codes `needed` intervals in place of those from number `from` up to number `to`, and
/// leaves `count` samples.
#[derive(Debug, Drop)]
pub(crate) struct Change<'a> {
    pub(crate) first: u64,
    pub(crate) stop: u64,
    pub(crate) values: &'a [i64],
    pub(crate) from: u64,
    pub(crate) to: u64,
    pub(crate) needed: u64,
    pub(crate) count: u64,
}

impl<C: Codec> Workspace<C> {
    ghost use Rattle.std.specs.Prelude.{◌≡◌, ◌+◌, ◌-◌, ◌*◌, ◌^◌, ◌≤◌, ◌/◌, None, Some, List, ℤ, length, IfOk, OnOk, IfErr};
    ghost use Rattle.std.specs.Int.{div_ceil};
    ghost use Rattle.aec_params.specs.declared.edit.Edit.TheVariants.{Overwrite, Append, Truncate, Insert, Remove};
    ghost use Rattle.aec_params.specs.declared.fault.Fault.TheVariants.{OutOfRange, Spent};
    ghost use Rattle.aec_bits.specs.Refusals.{growth_refusal};
    ghost use Rattle.aec_edit.specs.Changes.{Recoding, fresh_total, recoding_calls};
    ghost use Rattle.aec_edit.specs.Workspace.{IsSound};
    ghost use Rattle.aec_edit.specs.Calls.{want_of_calls};
    ghost use Rattle.aec_edit.specs.Judged.{CanCome, AreValues};
    ghost use Rattle.aec_edit.specs.Batches.{all_needed, first_refusal};
    ghost use Rattle.aec_edit.specs.Batched.{HasCount, IsChangeOf, CanExchangeIn, IsExchangeFor, IsFitting, IsDueFor};

    /// Judges edits as `apply_all` does, but as if `left` calls of the codec were left, and applies
    /// none. Returns how many calls the edits need one after the other. Fails with the first edit
    /// that doesn't fit the samples that the edits before it leave, or that needs more of the
    /// `left` calls than the edits before it leave.
    pub fn judge_all(&self, edits: &[Edit], left: u64) -> Result<u64, Stop>
        ensures ok { OnOk result (first_refusal (C.format self.now.codec) self.now.limit
            self.now.samples (2 ^ 64 - 1 - left) 0 edits.now ≡ None) }
        ensures needed { IfOk result (λ needed. needed
            ≡ all_needed (C.format self.now.codec).most self.now.samples edits.now) }
        ensures enough { IfOk result (λ needed. needed ≤ left) }
        ensures refuses { IfErr result (λ stop. first_refusal (C.format self.now.codec)
            self.now.limit self.now.samples (2 ^ 64 - 1 - left) 0 edits.now ≡ Some stop) }
    {
        let mut count = self.count();
        let mut rest = left;
        for (place, edit) in edits.iter().enumerate() {
            match self.judge(count, rest, edit) {
                Ok(change) => {
                    rest -= change.needed;
                    count = change.count;
                }
                Err(fault) => {
                    return Err(Stop {
                        place: place as u64,
                        fault,
                    });
                }
            }
        }
        Ok(left - rest)
    }

    /// Returns an edit of `count` samples as an exchange. Fails if it doesn't fit, or if it needs
    /// more calls of the codec than are left.
    fn judge<'a>(&self, count: u64, left: u64, edit: &'a Edit) -> Result<Change<'a>, Fault>
        requires { count ≤ self.now.limit }
        ensures ok { (s : List ℤ) → HasCount (C.format self.now.codec) count s
            → IfOk result (IsChangeOf (C.format self.now.codec) self.now.limit s edit.now) }
        ensures enough { IfOk result (λ change. change.needed ≤ left) }
        ensures refuses { (s : List ℤ) → HasCount (C.format self.now.codec) count s
            → IfErr result (IsDueFor (C.format self.now.codec) self.now.limit s
            (2 ^ 64 - 1 - left) edit.now) }
    {
        let change = self.change_of(count, edit)?;
        if change.needed > left {
            return Err(Fault::Spent);
        }
        Ok(change)
    }

    /// Returns an edit of `count` samples as an exchange. Fails if it doesn't fit.
    pub(crate) fn change_of<'a>(&self, count: u64, edit: &'a Edit) -> Result<Change<'a>, Fault>
        requires few { count ≤ self.now.limit }
        ensures { (s : List ℤ) → HasCount (C.format self.now.codec) count s
            → IsFitting (C.format self.now.codec) self.now.limit s edit.now result }
    {
        match edit {
            Edit::Overwrite { first, values } => {
                self.overwrite_change(count, *first, values.as_slice())
            }
            Edit::Append { values } => self.append_change(count, values.as_slice()),
            Edit::Truncate { count: stop } => self.truncate_change(count, *stop),
            Edit::Insert { first, values } => {
                self.insert_change(count, *first, values.as_slice())
            }
            Edit::Remove { first, len } => self.remove_change(count, *first, *len),
        }
    }

    /// Returns an overwrite as an exchange.
    fn overwrite_change<'a>(
        &self,
        count: u64,
        first: u64,
        values: &'a [i64],
    ) -> Result<Change<'a>, Fault>
        requires few { count ≤ self.now.limit }
        ensures { (s : List ℤ) → HasCount (C.format self.now.codec) count s
            → IsFitting (C.format self.now.codec) self.now.limit s (Overwrite first values.now)
            result }
    {
        let len = values.len() as u64;
        check_places_of(count, first, len)?;
        self.check_values(values)?;
        if values.is_empty() {
            return Ok(self.exchange_for(count, 0, 0, 0, values));
        }
        let stop = first + len;
        let to = stop.div_ceil(self.interval_len());
        Ok(self.exchange_for(count, first, stop, to, values))
    }

    /// Returns an append as an exchange.
    fn append_change<'a>(&self, count: u64, values: &'a [i64]) -> Result<Change<'a>, Fault>
        requires few { count ≤ self.now.limit }
        ensures { (s : List ℤ) → HasCount (C.format self.now.codec) count s
            → IsFitting (C.format self.now.codec) self.now.limit s (Append values.now) result }
    {
        self.check_growth_of(count, values)?;
        if values.is_empty() {
            return Ok(self.exchange_for(count, 0, 0, 0, values));
        }
        let to = count.div_ceil(self.interval_len());
        Ok(self.exchange_for(count, count, count, to, values))
    }

    /// Returns a truncation as an exchange.
    fn truncate_change<'a>(&self, count: u64, stop: u64) -> Result<Change<'a>, Fault>
        requires few { count ≤ self.now.limit }
        ensures { (s : List ℤ) → HasCount (C.format self.now.codec) count s
            → IsFitting (C.format self.now.codec) self.now.limit s (Truncate stop) result }
    {
        check_places_of(count, stop, 0)?;
        if stop == count {
            return Ok(self.exchange_for(count, 0, 0, 0, &[]));
        }
        let to = count.div_ceil(self.interval_len());
        Ok(self.exchange_for(count, stop, count, to, &[]))
    }

    /// Returns an insertion as an exchange.
    fn insert_change<'a>(
        &self,
        count: u64,
        first: u64,
        values: &'a [i64],
    ) -> Result<Change<'a>, Fault>
        requires few { count ≤ self.now.limit }
        ensures { (s : List ℤ) → HasCount (C.format self.now.codec) count s
            → IsFitting (C.format self.now.codec) self.now.limit s (Insert first values.now)
            result }
    {
        check_places_of(count, first, 0)?;
        self.check_growth_of(count, values)?;
        if values.is_empty() {
            return Ok(self.exchange_for(count, 0, 0, 0, values));
        }
        let to = end_for(self.interval_len(), count, first, values.len() as u64);
        Ok(self.exchange_for(count, first, first, to, values))
    }

    /// Returns a removal as an exchange.
    fn remove_change<'a>(&self, count: u64, first: u64, len: u64) -> Result<Change<'a>, Fault>
        requires few { count ≤ self.now.limit }
        ensures { (s : List ℤ) → HasCount (C.format self.now.codec) count s
            → IsFitting (C.format self.now.codec) self.now.limit s (Remove first len) result }
    {
        check_places_of(count, first, len)?;
        if len == 0 {
            return Ok(self.exchange_for(count, 0, 0, 0, &[]));
        }
        let stop = first + len;
        let to = end_for(self.interval_len(), count, stop, len);
        Ok(self.exchange_for(count, first, stop, to, &[]))
    }

    /// Returns the exchange of places of `count` samples for values that codes the intervals up to
    /// number `to`.
    fn exchange_for<'a>(
        &self,
        count: u64,
        first: u64,
        stop: u64,
        to: u64,
        values: &'a [i64],
    ) -> Change<'a>
        requires { CanExchangeIn (C.format self.now.codec).most self.now.limit count
            (record { first = first; stop = stop }) to (length values.now) }
        ensures { IsExchangeFor (C.format self.now.codec).most count
            (record { first = first; stop = stop }) to values.now result }
    {
        let interval_len = self.interval_len();
        let len = values.len() as u64;
        let kept = count.min(to * interval_len) - stop;
        let total = first % interval_len + (len + kept);
        Change {
            first,
            stop,
            values,
            from: first / interval_len,
            to,
            needed: total.div_ceil(interval_len),
            count: first + len + (count - stop),
        }
    }

    /// Checks that values can be added to `count` samples.
    fn check_growth_of(&self, count: u64, values: &[i64]) -> Result<(), Fault>
        requires { count ≤ self.now.limit }
        ensures few { OnOk result (count + length values.now ≤ self.now.limit) }
        ensures ok { (s : List ℤ) → length s ≡ count
            → OnOk result (CanCome (C.format self.now.codec) self.now.limit s values.now) }
        ensures refuses { (s : List ℤ) → length s ≡ count → IfErr result (λ e.
            growth_refusal (C.format self.now.codec) self.now.limit s values.now ≡ Some e) }
    {
        let limit = self.limit();
        if values.len() as u64 > limit - count {
            return Err(Fault::TooManySamples { limit });
        }
        self.check_values(values)
    }
}

ghost use Rattle.std.specs.Prelude.{◌≡◌, ◌+◌, ◌<◌, ◌≤◌, OnOk, IfErr, ◌%◌, ◌==◌, if◌then◌else◌};
ghost use Rattle.std.specs.Int.{div_ceil};
ghost use Rattle.aec_params.specs.declared.fault.Fault.TheVariants.{OutOfRange};

/// Fails with `OutOfRange` if `first + len` exceeds `count`.
fn check_places_of(count: u64, first: u64, len: u64) -> Result<(), Fault>
    ensures ok { OnOk result (first + len ≤ count) }
    ensures refuses { IfErr result (λ e. (count < first + len) × (e ≡ OutOfRange count)) }
{
    if len > count || first > count - len {
        return Err(Fault::OutOfRange { count });
    }
    Ok(())
}

/// Returns up to which interval of `count` samples is coded if `len` samples are inserted or
/// removed before place `place`.
fn end_for(interval_len: u64, count: u64, place: u64, len: u64) -> u64
    requires { 0 < interval_len }
    ensures { result ≡ (if len % interval_len == 0 then div_ceil place interval_len
        else div_ceil count interval_len) }
{
    if len % interval_len == 0 {
        place.div_ceil(interval_len)
    } else {
        count.div_ceil(interval_len)
    }
}
