//! Laws of what a run writes. Their functions do nothing: what each one's contract says is proved.

ghost use Rattle.aec_engine.specs.Laws.{EachInputHasOneAnswer, EachScriptHasOneAnswer, NoEditsKeepTheSamples, RefusedFrontsAreEnough, WhatIsTakenIsEnough};

/// Each input has exactly one result of coding, of decoding and of each range: bytes or one
/// refusal.
pub fn each_input_has_one_answer()
    ensures { EachInputHasOneAnswer }
{}

/// Each script and input have exactly one result: bytes or one refusal.
pub fn each_script_has_one_answer()
    ensures { EachScriptHasOneAnswer }
{}

/// A script without edits results in the code of the samples that the input decodes to, whatever
/// coder wrote the input.
pub fn no_edits_keep_the_samples()
    ensures { NoEditsKeepTheSamples }
{}

/// An input is refused for its first part alone, whatever follows: in coding, if this part contains
/// a sample that is too many or out of range; in decoding, ranges and edits, if it is longer than
/// the limit. So is a script.
pub fn refused_fronts_are_enough()
    ensures { RefusedFrontsAreEnough }
{}

/// If a source did not fail, the result for the bytes taken from it is the result for all of its
/// bytes.
pub fn what_is_taken_is_enough()
    ensures { WhatIsTakenIsEnough }
{}
