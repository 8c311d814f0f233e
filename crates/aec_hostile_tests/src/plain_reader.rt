//! A plain reader of streams, over lists of `bool`.
//!
//! Its author wrote it from docs/FORMAT.md and had not read the library's decoder. It is proved to
//! be safe and to end, and nothing else. Its sums saturate, so that it needs no clause: with the
//! settings and streams of the tests no sum reaches the end of its type.

use crate::plain_bits::PlainBits;
use crate::plain_sets::{CodedSet, Data};
use aec_params::{Fault, Settings};
use std::alloc::Global;

/// Blocks in a segment.
const SEGMENT: u64 = 64;

/// Reads bits as samples, with a count or without one. Fails with the first fault.
pub(crate) fn read_plainly(
    alloc: Global,
    settings: Settings,
    bits: &[bool],
    count: Option<u64>,
    limit: u64,
) -> Result<Vec<i64>, Fault> {
    if count.is_some_and(|count| count > limit) {
        return Err(Fault::TooManySamples { limit });
    }
    let mut reader = PlainReader {
        settings,
        count,
        limit,
        bits: PlainBits::new(bits),
        place: 0,
        samples: Vec::new(alloc),
    };
    // Each coded data set has at least one bit, so this loop has more rounds than there are sets.
    for _ in 0..=bits.len() {
        if !reader.wants_more() {
            break;
        }
        reader.read_next(alloc)?;
    }
    if let Some(count) = count {
        reader.samples.truncate(count as usize);
    }
    Ok(reader.samples)
}

/// How far a stream has been read.
#[derive(Drop)]
struct PlainReader<'a> {
    settings: Settings,
    count: Option<u64>,
    limit: u64,
    bits: PlainBits<'a>,
    /// How many blocks of the interval have been read.
    place: u64,
    samples: Vec<i64>,
}

impl<'a> PlainReader<'a> {
    fn samples_read(&self) -> u64 {
        self.samples.len() as u64
    }

    /// Returns whether another coded data set is read: with a count, until there are that many
    /// samples; without one, until only zeros are left.
    fn wants_more(&self) -> bool {
        match self.count {
            Some(count) => self.samples_read() < count,
            None => !self.bits.rest_is_zero(),
        }
    }

    /// Reads a coded data set, judges it, and appends its samples.
    fn read_next(&mut self, alloc: Global) -> Result<(), Fault> {
        let is_reference = self.settings.preprocess && self.place == 0;
        let set = CodedSet::read(alloc, &self.settings, &mut self.bits, is_reference)?;
        let blocks = self.judge(&set)?;
        if let Some(pattern) = set.reference {
            self.samples
                .push(sample(&self.settings, u64::from(pattern)))?;
        }
        match set.data {
            Data::Values(values) => self.push_values(&values)?,
            Data::Run(_) => self.push_zeros(blocks, is_reference)?,
        }
        self.go_past(blocks);
        Ok(())
    }

    /// Returns how many blocks the segment has left.
    fn blocks_left(&self) -> u64 {
        let interval = u64::from(self.settings.interval);
        (SEGMENT - self.place % SEGMENT).min(interval.saturating_sub(self.place))
    }

    /// Returns how many blocks a coded data set decodes to, or why it is refused.
    fn judge(&self, set: &CodedSet) -> Result<u64, Fault> {
        let bit = self.bits.start();
        let left = self.blocks_left();
        let blocks = match &set.data {
            Data::Run(number) => run_len(*number, left),
            Data::Values(_) => 1,
        };
        if has_large_value(&self.settings, &set.data) {
            return Err(Fault::ValueTooLarge { bit });
        }
        if blocks > left {
            return Err(Fault::RunTooLong { bit });
        }
        let len = blocks.saturating_mul(u64::from(self.settings.block_size));
        if self.count.is_none() && self.samples_read().saturating_add(len) > self.limit {
            return Err(Fault::TooManySamples { limit: self.limit });
        }
        Ok(blocks)
    }

    /// Appends the sample of a value. With preprocessing, the prediction is the sample before it,
    /// which always exists.
    fn push_value(&mut self, value: u64) -> Result<(), Fault> {
        let next = match self.samples.last() {
            Some(prediction) if self.settings.preprocess => {
                unmapped(&self.settings, *prediction, value)
            }
            _ => sample(&self.settings, value),
        };
        self.samples.push(next)?;
        Ok(())
    }

    fn push_values(&mut self, values: &[u64]) -> Result<(), Fault> {
        for value in values {
            self.push_value(*value)?;
        }
        Ok(())
    }

    /// Appends the samples of a run of zero blocks, except the reference sample.
    fn push_zeros(&mut self, blocks: u64, is_reference: bool) -> Result<(), Fault> {
        let places = blocks.saturating_mul(u64::from(self.settings.block_size));
        for _ in 0..places.saturating_sub(u64::from(is_reference)) {
            self.push_value(0)?;
        }
        Ok(())
    }

    /// Goes past blocks, and past the padding at the end of an interval.
    fn go_past(&mut self, blocks: u64) {
        self.place = self.place.saturating_add(blocks);
        if self.place == u64::from(self.settings.interval) {
            self.place = 0;
            if self.settings.pad {
                self.bits.skip_to_byte();
            }
        }
    }
}

/// Returns how many blocks the number of a run means, with `left` blocks left in its segment.
fn run_len(number: u64, left: u64) -> u64 {
    match number {
        0..=3 => number + 1,
        4 => left,
        _ => number,
    }
}

fn patterns(settings: &Settings) -> i64 {
    2i64.saturating_pow(settings.bits)
}

/// Returns whether a value is greater than each pattern.
fn has_large_value(settings: &Settings, data: &Data) -> bool {
    let patterns = patterns(settings).cast_unsigned();
    match data {
        Data::Run(_) => false,
        Data::Values(values) => values.iter().any(|value| *value >= patterns),
    }
}

/// Returns the least and the greatest sample.
fn range(settings: &Settings) -> (i64, i64) {
    let least = match settings.signed {
        true => 0i64.saturating_sub(patterns(settings) / 2),
        false => 0,
    };
    (
        least,
        patterns(settings).saturating_add(least).saturating_sub(1),
    )
}

/// Returns the sample of a pattern. If samples are signed, the upper half of the patterns is
/// negative.
fn sample(settings: &Settings, pattern: u64) -> i64 {
    let (_, greatest) = range(settings);
    let number = pattern.cast_signed();
    if number > greatest {
        number.saturating_sub(patterns(settings))
    } else {
        number
    }
}

/// Returns the sample with this mapped value. While both sides of the prediction have samples left,
/// values alternate between the sides: even values mean samples from the prediction up, odd values
/// samples below it. Greater values continue along the side that has samples left.
fn unmapped(settings: &Settings, prediction: i64, value: u64) -> i64 {
    let mapped = value.cast_signed();
    let (least, greatest) = range(settings);
    let below = prediction.saturating_sub(least);
    let above = greatest.saturating_sub(prediction);
    let both = below.min(above);
    let (is_above, distance) = if mapped > both.saturating_mul(2) {
        (above > below, mapped.saturating_sub(both))
    } else {
        (mapped % 2 == 0, mapped.saturating_add(1) / 2)
    };
    if is_above {
        prediction.saturating_add(distance)
    } else {
        prediction.saturating_sub(distance)
    }
}
