//! Judges edits, applies each whole or not at all, and runs lists of them.

use crate::outcome::{Outcome, Stop};
use crate::workspace::Workspace;
use aec_bits::Codec;
use aec_params::{Edit, Fault};

impl<C: Codec> Workspace<C> {
    ghost use Rattle.std.specs.Prelude.{◌≡◌, ◌≢◌, length, ◌+◌, ◌-◌, ◌^◌, ◌<◌, ◌≤◌, true, false, None, Some, OnOk, IfErr, List, ◌++◌, vec_len, vec_capacity, OnErr};
    ghost use Rattle.aec_params.specs.declared.edit.Edit.TheVariants.{Overwrite, Append, Truncate, Insert, Remove};
    ghost use Rattle.aec_edit.specs.Calls.{RisesAtMost, opened_at_most, want_of_calls};
    ghost use Rattle.aec_edit.specs.Changes.{recoded_end};
    ghost use Rattle.aec_edit.specs.Steps.{Answers, Applies, samples_left, outcome_of};
    ghost use Rattle.aec_edit.specs.Unchanged.{KeepsRules};
    ghost use Rattle.std.specs.List.{list_all};
    ghost use Rattle.aec_params.specs.declared.fault.Fault.TheVariants.{OutOfRange, Spent, Memory};
    ghost use Rattle.aec_bits.specs.Refusals.{growth_refusal, values_refusal, first_unheld as first_unheld_of};
    ghost use Rattle.aec_edit.specs.Runs.{HasRun};
    ghost use Rattle.aec_edit.specs.Workspace.{IsSound};
    ghost use Rattle.aec_edit.specs.Judged.{AreValues, CanCome, MakesEdit};
    ghost use Rattle.aec_edit.specs.declared.outcome.Outcome.{Outcome as OutcomeOf};
    ghost use Rattle.aec_edit.specs.Stops.{StopsAtRefusal};
    ghost use Rattle.aec_edit.specs.Batches.{AreAllOrNone};

    /// Applies an edit, and returns how many intervals it coded: `needed_calls`. Decodes at most as
    /// many intervals as contain a sample that is kept and coded again.
    ///
    /// A refused edit changes no sample, and nothing at all unless it is refused with `Memory`. An
    /// edit that doesn't fit is refused for that; else it may fail with `Spent`, and else with
    /// `Memory` if an allocation fails. An edit that codes no interval never fails with `Memory`.
    ///
    /// Fails with `Spent` exactly if the edit fits, and the codec's calls so far plus those that
    /// the edit needs exceed `u64::MAX`. The codec isn't called then.
    pub fn apply(&mut self, edit: &Edit) -> Result<u64, Fault>
        ensures answer { Answers (C.format self.old.codec) self.old.limit self.old.samples
            (C.called self.old.codec)
            edit.now (outcome_of result) (C.called self.new.codec) }
        ensures samples { self.new.samples
            ≡ samples_left self.old.samples edit.now (outcome_of result) }
        ensures reads { RisesAtMost
            (opened_at_most (C.format self.old.codec) self.old.limit self.old.samples
            (C.called self.old.codec) edit.now)
            (C.read self.old.codec) (C.read self.new.codec) }
        ensures rules { KeepsRules C.format self.old self.new }
        ensures err { IfErr result (λ fault. fault ≢ Memory → self.new ≡ self.old) }
    {
        match edit {
            Edit::Overwrite { first, values } => self.overwrite(*first, values.as_slice()),
            Edit::Append { values } => self.append(values.as_slice()),
            Edit::Truncate { count } => self.truncate(*count),
            Edit::Insert { first, values } => self.insert(*first, values.as_slice()),
            Edit::Remove { first, len } => self.remove(*first, *len),
        }
    }

    /// Overwrites the samples from place `first` on with the values.
    fn overwrite(&mut self, first: u64, values: &[i64]) -> Result<u64, Fault>
        ensures { MakesEdit C.format C.called C.read (Overwrite first values.now) result
            self.old self.new }
    {
        let len = values.len() as u64;
        self.check_places(first, len)?;
        self.check_values(values)?;
        if values.is_empty() {
            return Ok(0);
        }
        let stop = first + len;
        let to = stop.div_ceil(self.interval_len());
        self.exchange(first, stop, to, values)
    }

    /// Appends the values: does and returns the same as `apply` with an `Append` of them.
    pub fn append(&mut self, values: &[i64]) -> Result<u64, Fault>
        ensures applies { Applies (C.format self.old.codec) self.old.limit self.old.samples
            (C.called self.old.codec)
            (C.read self.old.codec) (Append values.now) result self.new.samples
            (C.called self.new.codec) (C.read self.new.codec) }
        ensures rules { KeepsRules C.format self.old self.new }
        ensures err { IfErr result (λ fault. fault ≢ Memory → self.new ≡ self.old) }
    {
        self.check_growth(values)?;
        if values.is_empty() {
            return Ok(0);
        }
        let (count, to) = (self.count(), self.intervals());
        self.exchange(count, count, to, values)
    }

    /// Keeps the first `stop` samples.
    fn truncate(&mut self, stop: u64) -> Result<u64, Fault>
        ensures { MakesEdit C.format C.called C.read (Truncate stop) result
            self.old self.new }
    {
        self.check_places(stop, 0)?;
        let count = self.count();
        if stop == count {
            return Ok(0);
        }
        let to = self.intervals();
        self.exchange(stop, count, to, &[])
    }

    /// Inserts the values before the sample at place `first`, or after the last one.
    fn insert(&mut self, first: u64, values: &[i64]) -> Result<u64, Fault>
        ensures { MakesEdit C.format C.called C.read (Insert first values.now) result
            self.old self.new }
    {
        self.check_places(first, 0)?;
        self.check_growth(values)?;
        if values.is_empty() {
            return Ok(0);
        }
        let to = self.recoded_end(first, values.len() as u64);
        self.exchange(first, first, to, values)
    }

    /// Removes the `len` samples from place `first` on.
    fn remove(&mut self, first: u64, len: u64) -> Result<u64, Fault>
        ensures { MakesEdit C.format C.called C.read (Remove first len) result
            self.old self.new }
    {
        self.check_places(first, len)?;
        if len == 0 {
            return Ok(0);
        }
        let stop = first + len;
        let to = self.recoded_end(stop, len);
        self.exchange(first, stop, to, &[])
    }

    /// Returns up to which interval samples are coded again if `len` samples are inserted or
    /// removed before place `place`.
    fn recoded_end(&self, place: u64, len: u64) -> u64
        ensures { result ≡ recoded_end (C.format self.now.codec) self.now.samples place len }
    {
        let interval_len = self.interval_len();
        if len % interval_len == 0 {
            place.div_ceil(interval_len)
        } else {
            self.intervals()
        }
    }

    /// Fails with `OutOfRange` if `first + len` exceeds the number of samples.
    pub(crate) fn check_places(&self, first: u64, len: u64) -> Result<(), Fault>
        ensures ok { OnOk result (first + len ≤ length self.now.samples) }
        ensures sound { IsSound (C.format self.now.codec) self.now.limit self.now.samples }
        ensures refuses { IfErr result
            (λ e. (length self.now.samples < first + len)
            × (e ≡ OutOfRange (length self.now.samples))) }
    {
        let count = self.count();
        if len > count || first > count - len {
            return Err(Fault::OutOfRange { count });
        }
        Ok(())
    }

    /// Returns whether fewer calls of the codec are left than are needed.
    pub(crate) fn are_spent(&self, needed: u64) -> bool
        ensures spent { result ≡ true
            → want_of_calls (C.called self.now.codec) needed ≡ Some Spent }
        ensures enough { result ≡ false → C.called self.now.codec + needed ≤ 2 ^ 64 - 1 }
    {
        needed > u64::MAX - self.calls()
    }

    /// Checks that values can be added: the limit has room for them, and they are samples.
    fn check_growth(&self, values: &[i64]) -> Result<(), Fault>
        ensures ok { OnOk result (CanCome (C.format self.now.codec) self.now.limit
            self.now.samples values.now) }
        ensures refuses { IfErr result (λ e.
            growth_refusal (C.format self.now.codec) self.now.limit self.now.samples values.now
            ≡ Some e) }
    {
        let limit = self.limit();
        if values.len() as u64 > limit - self.count() {
            return Err(Fault::TooManySamples { limit });
        }
        self.check_values(values)
    }

    /// Checks that all values are samples. The fault names the place of the first one that isn't.
    pub(crate) fn check_values(&self, values: &[i64]) -> Result<(), Fault>
        ensures ok { OnOk result (AreValues (C.format self.now.codec) values.now) }
        ensures refuses { IfErr result
            (λ e. values_refusal (C.format self.now.codec) values.now ≡ Some e) }
    {
        match self.first_unheld(values) {
            Some(index) => Err(Fault::SampleRange { index }),
            None => Ok(()),
        }
    }

    /// Returns the place of the first value that is no sample.
    fn first_unheld(&self, values: &[i64]) -> Option<u64>
        ensures { result ≡ first_unheld_of (C.format self.now.codec).holds 0 values.now }
    {
        if self.are_held(values) {
            return None;
        }
        for (index, x) in values.iter().enumerate() {
            if !self.holds(*x) {
                return Some(index as u64);
            }
        }
        None
    }

    /// Returns whether all values are samples. Tests each value whatever the others are, so that
    /// there is no branch between values.
    fn are_held(&self, values: &[i64]) -> bool
        ensures { result ≡ list_all (C.format self.now.codec).holds values.now }
    {
        let mut held = true;
        for x in values {
            held &= self.holds(*x);
        }
        held
    }

    /// Tries edits in their order, and appends the outcome of each to `outcomes`. A refused edit
    /// changes neither samples nor stream, and the edits after it are tried all the same. Fails
    /// with `Memory` only if `outcomes` lacks room for so many; nothing is changed then.
    #[tactic(auto, using(crate::proofs::RunLemmas::run_goes_on))]
    pub fn run(&mut self, edits: &[Edit], outcomes: &mut Vec<Outcome>) -> Result<(), Fault>
        ensures ok { OnOk result ((done : List OutcomeOf)
            × (outcomes.new.items ≡ outcomes.old.items ++ done)
            × HasRun (C.format self.old.codec) self.old.limit self.old.samples
            (C.called self.old.codec) (C.read self.old.codec)
            edits.now done self.new.samples (C.called self.new.codec) (C.read self.new.codec)) }
        ensures rules { KeepsRules C.format self.old self.new }
        ensures err { OnErr result (self.new ≡ self.old) }
        ensures outcomes_err { OnErr result (outcomes.new.items ≡ outcomes.old.items) }
        ensures full { OnErr result
            (vec_capacity outcomes.old < vec_len outcomes.old + length edits.now) }
        ensures fault { IfErr result (λ e. e ≡ Memory) }
    {
        outcomes.reserve(edits.len())?;
        for edit in edits {
            outcomes.push(outcome(self.apply(edit))).unwrap();
        }
        Ok(())
    }

    /// Applies edits in their order, up to the first that is refused: the edits before it are
    /// applied, those after it are not tried. Edits that code no interval never fail with `Memory`.
    pub fn run_until_refused(&mut self, edits: &[Edit]) -> Result<(), Stop>
        ensures run { StopsAtRefusal (C.format self.old.codec) self.old.limit self.old.samples
            (C.called self.old.codec) (C.read self.old.codec)
            edits.now result self.new.samples (C.called self.new.codec) (C.read self.new.codec) }
        ensures rules { KeepsRules C.format self.old self.new }
    {
        for (place, edit) in edits.iter().enumerate() {
            if let Err(fault) = self.apply(edit) {
                return Err(Stop {
                    place: place as u64,
                    fault,
                });
            }
        }
        Ok(())
    }

    /// Applies all edits, or none of them, and returns how many intervals it coded: at most as many
    /// as the edits code one after the other. It copies the bits of each interval that no edit
    /// changes or cuts differently, even to another place, and codes each other one once; no clause
    /// says this, nor how many intervals it decodes. It allocates the whole new code beside the old
    /// one, so it may fail with `Memory` even if no interval is coded.
    ///
    /// First the edits are judged in their order, as `apply` judges each of them, with the samples
    /// and the calls that the edits before it leave. The first that is refused decides: the result
    /// names its place and its fault, and nothing is changed. If none is refused, it may fail with
    /// `Memory` if an allocation fails. The place is then the number of edits, and no sample is
    /// changed, but some calls may have been made.
    pub fn apply_all(&mut self, edits: &[Edit]) -> Result<u64, Stop>
        ensures answer { AreAllOrNone (C.format self.old.codec) self.old.limit self.old.samples
            (C.called self.old.codec)
            edits.now result self.new.samples (C.called self.new.codec) }
        ensures rules { KeepsRules C.format self.old self.new }
        ensures err { IfErr result (λ stop. stop.fault ≢ Memory → self.new ≡ self.old) }
    {
        let left = u64::MAX - self.calls();
        self.judge_all(edits, left)?;
        match self.rebuild(edits) {
            Ok(coded) => Ok(coded),
            Err(fault) => Err(Stop {
                place: edits.len() as u64,
                fault,
            }),
        }
    }
}

ghost use Rattle.std.specs.Prelude.{◌≡◌};
ghost use Rattle.aec_edit.specs.Steps.{outcome_of};

/// Returns the result of `apply` as an outcome.
fn outcome(answer: Result<u64, Fault>) -> Outcome
    ensures { result ≡ outcome_of answer }
{
    match answer {
        Ok(coded) => Outcome::Done { coded },
        Err(fault) => Outcome::Refused { fault },
    }
}
