//! What the coder and the reader share: the length of a segment, and the sample from which the next
//! one is predicted.

ghost use Rattle.std.specs.Prelude.{◌≡◌};
ghost use Rattle.aec_interval.specs.NextBlock.{last_sample};

/// The number of blocks in a segment; the last segment of an interval may have fewer.
pub(crate) const SEGMENT_BLOCKS: u32 = 64;

/// Returns the sample from which the next one is predicted: the last, or 0 if there is none.
pub(crate) fn previous_of(samples: &[i64]) -> i64
    ensures { result ≡ last_sample samples.now }
{
    samples.last().copied().unwrap_or(0)
}
