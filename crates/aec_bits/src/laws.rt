//! A second lawful codec, and laws that hold of every lawful codec.

ghost use Rattle.std.proofs.Props.{props};
ghost use Rattle.aec_bits.specs.Codec.{IsLawful};
ghost use Rattle.aec_bits.specs.Octets.{octets};
ghost use Rattle.aec_bits.specs.Laws.{CutsAtIntervals, CodesIntervals, StandsBetween, HasOneList, JudgesPlacesFirst, JudgesTheLimitFirst, NamesTheFirstValue, AllowsWhatFits};

use crate::bit_buf::BitBuf;
use crate::bit_reader::BitReader;
use crate::codec::Codec;
use aec_params::Fault;
use std::alloc::Global;

/// A codec of the samples 0 to 255, each in eight bits, in intervals of at most four.
#[derive(Debug, Drop)]
pub struct Octets {
    calls: u64,
    reads: u64,
    ghost lawful: { IsLawful octets } by { Prim.hlevel props },
}

impl Octets {
    ghost use Rattle.std.specs.Prelude.{◌≡◌};

    /// Returns a codec whose count of coded intervals begins at `calls`. Allocates nothing.
    pub fn new(_alloc: Global, calls: u64) -> Octets
        ensures format { ⟦<Octets as Codec>⟧.format result ≡ octets }
        ensures calls { ⟦<Octets as Codec>⟧.called result ≡ calls }
        ensures reads { ⟦<Octets as Codec>⟧.read result ≡ 0 }
    {
        Octets { calls, reads: 0 }
    }
}

impl Codec for Octets {
    ghost format = { λ _. octets };

    ghost called = { λ c. c.calls };

    ghost read = { λ c. c.reads };

    ghost lawful = { λ c. c.lawful };

    fn interval_len(&self) -> u64 {
        4
    }

    fn holds(&self, x: i64) -> bool {
        (0..256).contains(&x)
    }

    fn calls(&self) -> u64 {
        self.calls
    }

    fn reads(&self) -> u64 {
        self.reads
    }

    fn code(&mut self, samples: &[i64], out: &mut BitBuf) -> Result<(), Fault> {
        if self.calls == u64::MAX {
            return Err(Fault::Spent);
        }
        out.reserve(8 * samples.len() as u64)?;
        for x in samples {
            out.push_bits(*x as u64, 8)?;
        }
        self.calls += 1;
        Ok(())
    }

    fn decode(
        &mut self,
        stream: &BitBuf,
        pos: u64,
        count: u64,
        out: &mut Vec<i64>,
    ) -> Result<(), Fault> {
        self.reads = self.reads.saturating_add(1);
        out.reserve(count as usize)?;
        let mut reader = BitReader::new(stream);
        reader.seek(pos);
        for _place in 0..count {
            out.push(reader.read(8)? as i64)?;
        }
        Ok(())
    }
}

/// If samples are cut at the end of an interval, their code is the codes of both parts, one after
/// the other.
pub fn cuts_at_intervals()
    ensures { CutsAtIntervals }
{}

/// The code of one interval is its own bits.
pub fn codes_intervals()
    ensures { CodesIntervals }
{}

/// The bits of an interval come after the code of the samples before it, and before the code of
/// those after it.
pub fn stands_between()
    ensures { StandsBetween }
{}

/// With a lawful codec, a code and a number of samples determine the samples, whatever bits follow.
pub fn has_one_list()
    ensures { HasOneList }
{}

/// An edit at a place past the samples is refused for its place, whatever its values are.
pub fn judges_places_first()
    ensures { JudgesPlacesFirst }
{}

/// An append past the limit is refused for the limit, whatever its values are; so is an insertion
/// at a place that is not past the samples.
pub fn judges_the_limit_first()
    ensures { JudgesTheLimitFirst }
{}

/// An edit within the samples and the limit is refused for its first value that is no sample.
pub fn names_the_first_value()
    ensures { NamesTheFirstValue }
{}

/// An edit whose values are samples, within the limit and the samples present, is not refused.
pub fn allows_what_fits()
    ensures { AllowsWhatFits }
{}
