//! A reader of samples, interval by interval.

use crate::reached_place::ReachedPlace;
use crate::reading::short::{is_zero_interval_next, read_short};
use crate::reading::skipping::{count_asked, skip_interval, skip_intervals};
use crate::reading::whole::judge_count;
use crate::reading::{Wanted, cut_to_count, read_interval, wants_more};
use aec_bits::{BitBuf, BitReader};
use aec_block::{Block, is_single_next};
use aec_params::{Fault, Params};
use std::alloc::Global;
use std::marker::Model;

/// Reads the samples that coded bits decode to, as `decode_all` does, and returns them interval by
/// interval. It keeps no samples, only the values of one block. Contracts see its place.
#[derive(Debug, Drop)]
pub struct StreamReader<'a> {
    params: Params,
    count: Option<u64>,
    limit: u64,
    reader: BitReader<'a>,
    block: u64,
    values: Block,
}

impl<'a> Model for StreamReader<'a> {
    ghost use Rattle.aec_interval.specs.Pieces.{Place, place_at, IsPlace};

    ghost Value = { Place };

    ghost view = { λ r. place_at r.params r.count r.limit r.reader.list r.block r.reader.pos };

    ghost invariant = { λ r.
        IsPlace (place_at r.params r.count r.limit r.reader.list r.block r.reader.pos) };
}

impl<'a> StreamReader<'a> {
    ghost use Rattle.std.specs.Prelude.{◌≡◌, ◌<◌, ◌≤◌, ◌%◌, max, true, false, [], vec_len, vec_capacity, IfSome, IfOk, IfErr, OnErr};
    ghost use Rattle.std.specs.Option.{is_some};
    ghost use Rattle.std.specs.Result.{result_err};
    ghost use Rattle.aec_params.specs.declared.fault.Fault.TheVariants.{Memory};
    ghost use Rattle.aec_params.specs.Params.{interval_len};
    ghost use Rattle.aec_params.specs.Faults.{IsFault};
    ghost use Rattle.aec_params.specs.Limits.{most_blocks, most_samples};
    ghost use Rattle.aec_interval.specs.Reached.{count_refusal};
    ghost use Rattle.aec_interval.specs.Pieces.{place_at, is_wanted_at, IsPlace, ReadsInterval, ReadsIntervals, RefusesAt};
    ghost use Rattle.aec_interval.specs.Skipping.{HasInterval, HasIntervals, IsFaultAt};

    /// Returns a reader at the first bit. It asks for the first `count` samples, or for all samples
    /// if `count` is `None`. Fails with `TooManySamples` if a given count is above `limit`, never
    /// with `Memory`.
    pub fn new(
        alloc: Global,
        params: Params,
        bits: &'a BitBuf,
        count: Option<u64>,
        limit: u64,
    ) -> Result<StreamReader<'a>, Fault>
        requires { limit ≤ most_samples }
        ensures ok { IfOk result (λ reader. reader
            ≡ place_at params count limit bits.now.list 0 0) }
        ensures refuses { result_err result ≡ count_refusal limit count }
    {
        judge_count(count, limit)?;
        Ok(StreamReader {
            params,
            count,
            limit,
            reader: BitReader::new(bits),
            block: 0,
            values: Block::new(alloc, None),
        })
    }

    /// Moves back to the first bit.
    pub fn restart(&mut self)
        ensures { self.new ≡ place_at self.old.settings self.old.count self.old.limit self.old.bits
            0 0 }
    {
        self.params.known_allowed();
        self.reader.seek(0);
        self.block = 0;
    }

    /// Returns the reader's place, for `seek`.
    pub fn place(&self) -> ReachedPlace
        ensures block { result.block ≡ self.now.block }
        ensures bit { result.bit ≡ self.now.bit }
        ensures reached { IsPlace self.now }
    {
        ReachedPlace {
            block: self.block,
            bit: self.reader.pos(),
        }
    }

    /// Moves to a place that a reader of these bits under these terms has reached.
    pub fn seek(&mut self, place: ReachedPlace)
        requires reached { let old = self.old in
            IsPlace (place_at old.settings old.count old.limit old.bits place.block place.bit) }
        ensures { let old = self.old in
            self.new ≡ place_at old.settings old.count old.limit old.bits place.block place.bit }
    {
        self.params.known_allowed();
        self.reader.seek(place.bit);
        self.block = place.block;
    }

    /// Replaces the vector's items by the samples of the next interval, no more than an interval
    /// has. Returns false if none are left.
    ///
    /// Fails as `decode_all` does, with each fault at its interval. Fails with `Memory` only if the
    /// vector had no room for the samples of a whole interval. After a refusal, or if none are
    /// left, the reader hasn't moved, and the vector is empty: a call that lacked memory can be
    /// repeated.
    pub fn next(&mut self, samples: &mut Vec<i64>) -> Result<bool, Fault>
        ensures more { IfOk result (λ more. more ≡ is_wanted_at self.old) }
        ensures read { IfOk result
            (λ more. more ≡ true → ReadsInterval self.old samples.new.items self.new) }
        ensures done { IfOk result (λ more. more ≡ false → self.new ≡ self.old) }
        ensures empty { IfOk result (λ more. more ≡ false → samples.new.items ≡ []) }
        ensures refuses { IfErr result (λ fault. RefusesAt self.old fault) }
        ensures err { OnErr result (self.new ≡ self.old) }
        ensures cleared { OnErr result (samples.new.items ≡ []) }
        ensures full { IfErr result
            (λ fault. fault ≡ Memory → vec_capacity samples.old < interval_len self.old.settings) }
        ensures capacity { vec_capacity samples.old ≤ vec_capacity samples.new }
        ensures few { self.new.block < most_blocks }
        ensures ends { is_wanted_at self.new ≡ true
            → self.new.block % self.new.settings.interval ≡ 0 }
    {
        samples.clear();
        let wanted = Wanted {
            first: self.block,
            start: self.reader.pos(),
            count: self.count,
            limit: self.limit,
        };
        if !wants_more(&self.params, wanted, &self.reader, self.block) {
            return Ok(false);
        }
        let values = &mut self.values;
        match read_interval(&self.params, wanted, &mut self.reader, values, samples) {
            Ok(next) => {
                self.block = next;
                cut_to_count(&self.params, wanted, samples);
                Ok(true)
            }
            Err(fault) => {
                self.reader.seek(wanted.start);
                samples.truncate(0);
                Err(fault)
            }
        }
    }

    /// Returns whether several intervals may be read at once, judged by the next coded data set
    /// alone; no clause says so. The reader doesn't move.
    fn is_short_next(&mut self) -> bool
        ensures { self.new ≡ self.old }
    {
        is_single_next(&self.params, &mut self.reader)
            || is_zero_interval_next(&self.params, &mut self.reader)
    }

    /// Reads the next intervals into the vector, if they are short and the vector has room for
    /// them. Else returns false, and the reader hasn't moved.
    fn next_short(&mut self, most: u64, samples: &mut Vec<i64>) -> bool
        ensures read { result ≡ true → ReadsIntervals self.old samples.new.items self.new }
        ensures at_most { result ≡ true → vec_len samples.new ≤ most }
        ensures stays { result ≡ false → self.new ≡ self.old }
        ensures few { self.new.block < most_blocks }
        ensures ends { is_wanted_at self.new ≡ true
            → self.new.block % self.new.settings.interval ≡ 0 }
        ensures capacity { vec_capacity samples.old ≤ vec_capacity samples.new }
    {
        let from = Wanted {
            first: self.block,
            start: self.reader.pos(),
            count: self.count,
            limit: self.limit,
        };
        if !wants_more(&self.params, from, &self.reader, self.block) {
            return false;
        }
        let end = read_short(&self.params, from, most, &mut self.reader, samples);
        if end == from.first {
            return false;
        }
        self.block = end;
        cut_to_count(&self.params, from, samples);
        true
    }

    /// Replaces the vector's items by the samples of the next interval, as `next` does, or of
    /// several next intervals: then at most `most` samples. No clause says how many intervals it
    /// reads. Now it reads several only if they are short, and at most `MAX_SAMPLES_AT_ONCE`
    /// samples, into room that the vector has (`reading::short`). All else is as with `next`.
    pub fn next_few(&mut self, most: u64, samples: &mut Vec<i64>) -> Result<bool, Fault>
        ensures more { IfOk result (λ more. more ≡ is_wanted_at self.old) }
        ensures read { IfOk result
            (λ more. more ≡ true → ReadsIntervals self.old samples.new.items self.new) }
        ensures at_most { IfOk result
            (λ more. vec_len samples.new ≤ max most (interval_len self.old.settings)) }
        ensures done { IfOk result (λ more. more ≡ false → self.new ≡ self.old) }
        ensures empty { IfOk result (λ more. more ≡ false → samples.new.items ≡ []) }
        ensures refuses { IfErr result (λ fault. RefusesAt self.old fault) }
        ensures err { OnErr result (self.new ≡ self.old) }
        ensures cleared { OnErr result (samples.new.items ≡ []) }
        ensures full { IfErr result
            (λ fault. fault ≡ Memory → vec_capacity samples.old < interval_len self.old.settings) }
        ensures capacity { vec_capacity samples.old ≤ vec_capacity samples.new }
        ensures few { self.new.block < most_blocks }
        ensures ends { is_wanted_at self.new ≡ true
            → self.new.block % self.new.settings.interval ≡ 0 }
    {
        if self.is_short_next() && self.next_short(most, samples) {
            return Ok(true);
        }
        self.next(samples)
    }

    /// Moves past the next interval as `next` does, without making its samples. Returns how many of
    /// these are asked for; `None` if no more is wanted.
    ///
    /// Fails as `next` does, but never with `Memory`; the reader then hasn't moved.
    pub fn skip(&mut self) -> Result<Option<u64>, Fault>
        ensures more { IfOk result (λ len. is_some len ≡ is_wanted_at self.old) }
        ensures skipped { IfOk result (λ len. IfSome len (λ n. HasInterval self.old n self.new)) }
        ensures done { IfOk result (λ len. is_some len ≡ false → self.new ≡ self.old) }
        ensures refuses { IfErr result (λ fault. IsFaultAt self.old fault) }
        ensures err { OnErr result (self.new ≡ self.old) }
        ensures few { self.new.block < most_blocks }
        ensures ends { is_wanted_at self.new ≡ true
            → self.new.block % self.new.settings.interval ≡ 0 }
    {
        let from = Wanted {
            first: self.block,
            start: self.reader.pos(),
            count: self.count,
            limit: self.limit,
        };
        if !wants_more(&self.params, from, &self.reader, self.block) {
            return Ok(None);
        }
        match skip_interval(&self.params, from, &mut self.reader, &mut self.values) {
            Ok(end) => {
                self.block = end;
                Ok(Some(count_asked(&self.params, from, end)))
            }
            Err(fault) => {
                self.reader.seek(from.start);
                Err(fault)
            }
        }
    }

    /// Moves past the next interval as `skip` does, or past several next intervals: then past at
    /// most `most` samples, though no clause says so. How many intervals it passes is unspecified.
    /// Returns how many of their samples are asked for; `None` if no more is wanted.
    ///
    /// Fails as `next` does, with the fault of one of these intervals, but never with `Memory`; the
    /// reader then hasn't moved.
    pub fn skip_few(&mut self, most: u64) -> Result<Option<u64>, Fault>
        ensures more { IfOk result (λ len. is_some len ≡ is_wanted_at self.old) }
        ensures skipped { IfOk result (λ len. IfSome len (λ n. HasIntervals self.old n self.new)) }
        ensures done { IfOk result (λ len. is_some len ≡ false → self.new ≡ self.old) }
        ensures refuses { IfErr result (λ fault. let old = self.old in
            IsFault old.settings old.count old.limit old.bits old.block old.bit fault) }
        ensures err { OnErr result (self.new ≡ self.old) }
        ensures few { self.new.block < most_blocks }
        ensures ends { is_wanted_at self.new ≡ true
            → self.new.block % self.new.settings.interval ≡ 0 }
    {
        let begin = Wanted {
            first: self.block,
            start: self.reader.pos(),
            count: self.count,
            limit: self.limit,
        };
        if !wants_more(&self.params, begin, &self.reader, self.block) {
            return Ok(None);
        }
        match skip_intervals(
            &self.params,
            begin,
            most,
            &mut self.reader,
            &mut self.values,
        ) {
            Ok(end) => {
                self.block = end;
                Ok(Some(count_asked(&self.params, begin, end)))
            }
            Err(fault) => {
                self.reader.seek(begin.start);
                Err(fault)
            }
        }
    }
}
