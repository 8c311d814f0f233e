//! The one operation that applies every edit: places are exchanged for values.

use crate::workspace::Workspace;
use crate::workspace::fresh_coding::Fresh;
use aec_bits::Codec;
use aec_params::Fault;

impl<C: Codec> Workspace<C> {
    ghost use Rattle.std.specs.Prelude.{◌≡◌, ◌-◌, ◌*◌, ◌<◌, ◌≤◌, ◌++◌, ◌&&◌, nat_lt, [], length, IfOk, OnOk, OnErr, IfErr, MatchResult};
    ghost use Rattle.std.specs.Int.{div_ceil};
    ghost use Rattle.aec_params.specs.declared.fault.Fault.TheVariants.{Memory};
    ghost use Rattle.aec_params.specs.Edits.{keeps_a_sample};
    ghost use Rattle.aec_edit.specs.Calls.{RisesAtMost};
    ghost use Rattle.aec_edit.specs.Changes.{CanExchange, ExchangesUpTo, calls_up_to};
    ghost use Rattle.aec_edit.specs.Coming.{IsFreshFor};
    ghost use Rattle.aec_edit.specs.Opened.{HasPlaces, opened_first, opened_behind, opened_count, samples_of, opened_samples};
    ghost use Rattle.aec_edit.specs.Unchanged.{KeepsRules, IsOnlyRead};

    /// Exchanges the samples from place `first` up to place `stop` for values, and returns how many
    /// intervals it has coded: all from the interval of `first` up to interval `to`. If it fails,
    /// the samples are unchanged.
    pub(crate) fn exchange(
        &mut self,
        first: u64,
        stop: u64,
        to: u64,
        values: &[i64],
    ) -> Result<u64, Fault>
        requires { CanExchange C.format self.old (record { first = first; stop = stop }) to
            values.now }
        ensures { ExchangesUpTo C.format C.called C.read (record { first = first; stop = stop })
            to values.now result self.old self.new }
    {
        let interval_len = self.interval_len();
        let kept = self.count().min(to * interval_len) - stop;
        let total = first % interval_len + (values.len() as u64 + kept);
        let needed = total.div_ceil(interval_len);
        if self.are_spent(needed) {
            return Err(Fault::Spent);
        }
        let mut fresh = self.fresh(first, stop, to, values)?;
        let coded = self.code_fresh(&mut fresh, total)?;
        self.put(first / interval_len, to, &coded)?;
        self.keep_lists(fresh, coded);
        Ok(needed)
    }

    /// Returns the samples that are to be coded for an exchange. Fails with `Memory` if an
    /// allocation fails.
    fn fresh<'a>(
        &mut self,
        first: u64,
        stop: u64,
        to: u64,
        values: &'a [i64],
    ) -> Result<Fresh<'a>, Fault>
        requires { CanExchange C.format self.old (record { first = first; stop = stop }) to
            values.now }
        ensures ok { IfOk result (IsFreshFor (C.format self.old.codec).most self.old.samples
            (record { first = first; stop = stop }) to values.now) }
        ensures fault { IfErr result (λ e. (e ≡ Memory)
            × (0 < calls_up_to (C.format self.old.codec) self.old.samples
            (record { first = first; stop = stop }) to values.now)) }
        ensures read { IsOnlyRead C.format C.called C.read
            (opened_count (C.format self.old.codec).most (length self.old.samples)
            (record { first = first; stop = stop }))
            self.old self.new }
    {
        let interval_len = self.interval_len();
        let next = stop.div_ceil(interval_len);
        let head = (first % interval_len) as usize;
        let tail = (self.count().min(next * interval_len) - stop) as usize;
        let (mut front, mut back) = self.take_lists();
        self.open_ends(first, stop, &mut front, &mut back)?;
        let mut fresh = Fresh {
            front,
            values,
            back,
            next,
            end: to,
        };
        fresh.keep_ends(head, tail)?;
        Ok(fresh)
    }

    /// Decodes the first and the last interval that an exchange touches, if they keep a sample, and
    /// appends their samples to `ends`. The last one is first decoded into `spare`.
    fn open_ends(
        &mut self,
        first: u64,
        stop: u64,
        ends: &mut Vec<i64>,
        spare: &mut Vec<i64>,
    ) -> Result<(), Fault>
        requires places { HasPlaces (length self.old.samples)
            (record { first = first; stop = stop }) }
        requires empty { (ends.old.items ≡ []) × (spare.old.items ≡ []) }
        ensures ok { OnOk result (ends.new.items
            ≡ opened_samples (C.format self.old.codec).most
            (record { first = first; stop = stop }) self.old.samples) }
        ensures fault { IfErr result (λ e. (e ≡ Memory)
            × (0 < opened_count (C.format self.old.codec).most (length self.old.samples)
            (record { first = first; stop = stop }))) }
        ensures read { IsOnlyRead C.format C.called C.read
            (opened_count (C.format self.old.codec).most (length self.old.samples)
            (record { first = first; stop = stop }))
            self.old self.new }
    {
        self.open_first(first, stop, ends)?;
        self.open_last(first, stop, spare)?;
        ends.extend_from_slice(spare)?;
        Ok(())
    }

    /// Returns whether interval `k` begins before place `stop` and keeps a sample outside the
    /// places.
    fn is_opened(&self, first: u64, stop: u64, k: u64) -> bool
        requires places { HasPlaces (length self.now.samples)
            (record { first = first; stop = stop }) }
        requires place { k * (C.format self.now.codec).most ≤ stop }
        ensures { result ≡ (nat_lt (k * (C.format self.now.codec).most) stop
            && keeps_a_sample (C.format self.now.codec).most (length self.now.samples)
            (record { first = first; stop = stop }) k) }
    {
        let interval_len = self.interval_len();
        let begin = k * interval_len;
        begin < stop && (begin < first || stop < self.count().min(begin + interval_len))
    }

    /// Decodes the first touched interval if it keeps a sample before the places, or if it is also
    /// the last one and keeps a sample after them.
    fn open_first(&mut self, first: u64, stop: u64, ends: &mut Vec<i64>) -> Result<(), Fault>
        requires { HasPlaces (length self.old.samples) (record { first = first; stop = stop }) }
        ensures ok { OnOk result (ends.new.items ≡ ends.old.items
            ++ samples_of (C.format self.old.codec).most self.old.samples
            (opened_first (C.format self.old.codec).most (length self.old.samples)
            (record { first = first; stop = stop }))) }
        ensures fault { IfErr result (λ e. (e ≡ Memory)
            × (0 < length (opened_first (C.format self.old.codec).most (length self.old.samples)
            (record { first = first; stop = stop })))) }
        ensures read { IsOnlyRead C.format C.called C.read
            (length (opened_first (C.format self.old.codec).most (length self.old.samples)
            (record { first = first; stop = stop })))
            self.old self.new }
    {
        let from = first / self.interval_len();
        if self.is_opened(first, stop, from) {
            return self.decode_interval(from, ends);
        }
        Ok(())
    }

    /// Decodes the last touched interval if it isn't the first and keeps a sample after the places.
    fn open_last(&mut self, first: u64, stop: u64, ends: &mut Vec<i64>) -> Result<(), Fault>
        requires { HasPlaces (length self.old.samples) (record { first = first; stop = stop }) }
        ensures ok { OnOk result (ends.new.items ≡ ends.old.items
            ++ samples_of (C.format self.old.codec).most self.old.samples
            (opened_behind (C.format self.old.codec).most (length self.old.samples)
            (record { first = first; stop = stop }))) }
        ensures fault { IfErr result (λ e. (e ≡ Memory)
            × (0 < length (opened_behind (C.format self.old.codec).most (length self.old.samples)
            (record { first = first; stop = stop })))) }
        ensures read { IsOnlyRead C.format C.called C.read
            (length (opened_behind (C.format self.old.codec).most (length self.old.samples)
            (record { first = first; stop = stop })))
            self.old self.new }
    {
        let interval_len = self.interval_len();
        let last = stop.div_ceil(interval_len).saturating_sub(1);
        if last <= first / interval_len {
            return Ok(());
        }
        if self.is_opened(first, stop, last) {
            return self.decode_interval(last, ends);
        }
        Ok(())
    }
}
