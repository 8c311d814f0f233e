//! Laws of edits and runs. Their functions do nothing: what each one's contract says is proved.

ghost use Rattle.aec_edit.specs.Laws.{
  OverwritesCodeWhatTheyTouch,
  RefusedEditsChangeNothing,
  EditsThatCodeNothingAreMade,
  RunsCountTheirCalls,
  RunsJoin,
  RunsHaveOneAnswer,
  RunsLeaveSamples,
};

/// An overwrite that is applied counts one call of the coder for each interval that it touches.
pub fn overwrites_code_what_they_touch()
    ensures { OverwritesCodeWhatTheyTouch }
{}

/// By the definition of outcomes a refused edit leaves the samples unchanged, and also the calls,
/// unless it is refused with `Memory`.
pub fn refused_edits_change_nothing()
    ensures { RefusedEditsChangeNothing }
{}

/// An edit that codes no interval is applied if it fits, never refused with `Memory`.
pub fn edits_that_code_nothing_are_made()
    ensures { EditsThatCodeNothingAreMade }
{}

/// Over a run the calls rise by what the accepted edits have coded, or by more if an edit was
/// refused with `Memory`.
pub fn runs_count_their_calls()
    ensures { RunsCountTheirCalls }
{}

/// Runs one after the other are one run of all their edits, and an edit by itself is a run.
pub fn runs_join()
    ensures { RunsJoin }
{}

/// Edits have exactly one list of outcomes without `Memory`.
pub fn runs_have_one_answer()
    ensures { RunsHaveOneAnswer }
{}

/// Edits leave samples that the format holds, and no more than the limit.
pub fn runs_leave_samples()
    ensures { RunsLeaveSamples }
{}
