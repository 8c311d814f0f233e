//! Laws of the format's definitions. The contract of each function is a law, and its body is empty.

ghost use Rattle.aec_params.specs.Laws.{FundamentalSequencesDiffer, BinaryNumbersDiffer, CodewordLengths, BinaryNumbersAreReadBack, ListsAreTold, EachNumberIsOnePair, SamplesAreValues, PiecesAreTheCut, WholePiecesComeFirst, BytesAreBits, BlocksTellSamples, SamplesAreBlocks, ReadingsHaveSamples};
ghost use Rattle.aec_params.specs.EditLaws.{EditsTouchFew, MovesByLength, MovesCodeWhatIsNew, MovesOpenWhatIsLost, EndsMeet, MovesOpenFew, MovesCodeNothing};

/// Fundamental sequences of two numbers differ, whatever bits follow them.
pub fn fundamental_sequences_differ()
    ensures { FundamentalSequencesDiffer }
{}

/// Binary numbers of one length differ, whatever bits follow them.
pub fn binary_numbers_differ()
    ensures { BinaryNumbersDiffer }
{}

/// A fundamental sequence of v has v + 1 bits, a binary number of width w has w.
pub fn codewords_have_their_lengths()
    ensures { CodewordLengths }
{}

/// A number below 2^w is read back from its w bits, and a list of bits is spelled again from its
/// number.
pub fn binary_numbers_are_read_back()
    ensures { BinaryNumbersAreReadBack }
{}

/// If codewords determine what they code, so do lists of equally many codewords, whatever bits
/// follow them.
pub fn lists_of_codewords_differ<X, K>()
    ensures { ListsAreTold X K }
{}

/// Each number is the number of exactly one pair.
pub fn each_number_is_one_pair()
    ensures { EachNumberIsOnePair }
{}

/// With allowed settings, samples correspond one-to-one to the values below 2^n at each prediction
/// that is a sample, and to their patterns of n bits.
pub fn samples_are_values()
    ensures { SamplesAreValues }
{}

/// The pieces of a list join to this list and are cut as defined; no other lists are both.
pub fn pieces_are_the_cut<X>()
    ensures { PiecesAreTheCut X }
{}

/// If a list begins with whole pieces, they are the first of its pieces.
pub fn whole_pieces_come_first<X>()
    ensures { WholePiecesComeFirst X }
{}

/// Bits turned into bytes and back are the padded bits; bytes turned into bits and back are the
/// bytes.
pub fn bytes_are_bits()
    ensures { BytesAreBits }
{}

/// The number and the blocks of held samples determine the samples.
pub fn blocks_tell_samples()
    ensures { BlocksTellSamples }
{}

/// The blocks of held samples are exactly the blocks in the format's shape.
pub fn samples_are_blocks()
    ensures { SamplesAreBlocks }
{}

/// Each reading of blocks is a reading of samples, and of only one list.
pub fn readings_have_samples()
    ensures { ReadingsHaveSamples }
{}

/// States which intervals an edit touches. An edit that moves no sample opens at most two of the
/// intervals that it codes.
pub fn edits_touch_few()
    ensures { EditsTouchFew }
{}

/// States how many intervals an insertion and a removal code and open, by lengths alone. Exception:
/// if a removal's length is no multiple of an interval's, the intervals that it opens are counted
/// in their list.
pub fn moves_by_length()
    ensures { MovesByLength }
{}

/// An insertion and a removal code exactly the intervals that did not exist before.
pub fn moves_code_what_is_new()
    ensures { MovesCodeWhatIsNew }
{}

/// An insertion and a removal open exactly the intervals that no longer exist afterwards and keep a
/// sample.
pub fn moves_open_what_is_lost()
    ensures { MovesOpenWhatIsLost }
{}

/// An insertion at the end codes the same number of intervals as the append; a removal up to the
/// end codes the same number as the truncate.
pub fn ends_meet()
    ensures { EndsMeet }
{}

/// An insertion opens at most as many intervals as it codes, a removal at most two more.
pub fn moves_open_few()
    ensures { MovesOpenFew }
{}

/// An insertion or removal of nothing, a removal of whole intervals, and a removal from the start
/// of an interval to the end code nothing.
pub fn moves_code_nothing()
    ensures { MovesCodeNothing }
{}
