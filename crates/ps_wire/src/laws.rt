//! Laws of the values and the texts of deltas. Each is a function that does nothing, and its contract is the law.

ghost use Rattle.ps_wire.specs.Fits.{BatchesFit, DecodedFit, EditsFit, NewsFit};
ghost use Rattle.ps_wire.specs.Line.{TextsAreOneLine};
ghost use Rattle.ps_wire.specs.Value.{OneDelta, OneValue};

/// States that each delta has at most one JSON value, and that each JSON value stands for at most one delta.
#[tactic(auto, using(crate::proofs::OneDeltaLemmas::one_value, crate::proofs::OneDeltaLemmas::one_delta))]
pub fn values_and_deltas_agree()
    ensures one_value { OneValue }
    ensures one_delta { OneDelta }
{}

/// States that the delta of an edit is never too long for a line.
///
/// The delta of an edit has one cell, with any register, any counts and any pairs of one option (a pair is an option
/// and the tag of its choice). The delta of a batch has contents for at most as many cells as a row has.
pub fn edited_lines_fit()
    ensures batches { BatchesFit }
    ensures edits { EditsFit }
{}

/// States that a delta that was read from a line is never too long for a line: its compact text is no longer than the
/// line that was read.
pub fn decoded_lines_fit()
    ensures { DecodedFit }
{}

/// States that the news of a delta, the part that is new to a state, has a compact text no longer than the delta's,
/// whatever the state.
pub fn news_lines_fit()
    ensures { NewsFit }
{}

/// States that the compact text of a delta has no line feed, so a line feed can end its line.
pub fn delta_texts_are_one_line()
    ensures { TextsAreOneLine }
{}
