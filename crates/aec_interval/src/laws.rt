//! Laws of intervals, streams and readings. The contract of each function is a law, and its body is
//! empty.

ghost use Rattle.aec_interval.specs.Laws.{
  IntervalsAreRead,
  IntervalsAreTold,
  StreamsAreReadBack,
  AllBitsAreReadInOneWay,
  AllReadingsAreSamples,
  AllCodesAreShortest,
  EachCodeIsRead,
};
ghost use Rattle.aec_interval.specs.CutLaws.{AllCutsMakeNoDifference};
ghost use Rattle.aec_interval.specs.PieceLaws.{AllStepsAreTheReading};
ghost use Rattle.aec_interval.specs.Skipping.{AllSetsStandForSamples};
ghost use Rattle.aec_interval.specs.Offsets.{IntervalsAreReadAlone, OffsetsAreOfTheCode};

/// The code of an interval consists of lawful coded data sets for its blocks.
pub fn intervals_are_read()
    ensures { IntervalsAreRead }
{}

/// Two intervals of equal length whose codes begin the same bits are equal, whatever bits follow.
pub fn intervals_are_told()
    ensures { IntervalsAreTold }
{}

/// The code of samples, read with their count, decodes to these samples, whatever bits follow it.
pub fn streams_are_read_back()
    ensures { StreamsAreReadBack }
{}

/// All bits have either one reading or one fault, never both.
pub fn bits_are_read_in_one_way()
    ensures { AllBitsAreReadInOneWay }
{}

/// The samples of a reading are held; with a count, their number is the count.
pub fn readings_are_samples()
    ensures { AllReadingsAreSamples }
{}

/// No coded data sets for the blocks of an interval have fewer bits than its code before padding.
/// If nothing is padded, none for the blocks of all intervals have fewer bits than the code of all
/// samples.
pub fn codes_are_shortest()
    ensures { AllCodesAreShortest }
{}

/// If nothing is padded, coded data sets for the blocks of each interval, one after the other,
/// decode to the samples if they are read with the samples' count, whatever bits follow. So all
/// that `codes_are_shortest` compares with the code of the samples decodes to these samples.
pub fn each_code_is_read()
    ensures { EachCodeIsRead }
{}

/// However the input of a `StreamCoder` is cut into pieces, what its calls append is the stream of
/// the samples of all bytes, and its refusal is the first one of all bytes.
pub fn cuts_make_no_difference()
    ensures { AllCutsMakeNoDifference }
{}

/// A `StreamReader` returns, step by step, the samples that the bits decode to, and its refusal is
/// that of all bits.
pub fn steps_are_the_reading()
    ensures { AllStepsAreTheReading }
{}

/// Lawful coded data sets from the start of an interval on decode to samples.
pub fn coded_data_sets_stand_for_samples()
    ensures { AllSetsStandForSamples }
{}

/// From the bit on where the code of an interval begins, the stream of samples decodes, with a
/// count, to the samples from the interval's first one on, whatever bits follow the stream.
pub fn intervals_are_read_alone()
    ensures { IntervalsAreReadAlone }
{}

/// The offsets of the stream of samples, read with their count, are the bits where the codes of the
/// intervals begin.
pub fn offsets_are_of_the_code()
    ensures { OffsetsAreOfTheCode }
{}
