//! Laws of sessions, as functions that do nothing. Each law is its function's contract, and part of the public
//! interface.

ghost use Rattle.ps_session.specs.EditLines.{EditLinesFit, EditsAreLawful};
ghost use Rattle.ps_session.specs.Laws.{TranscriptIsDecided};

/// States that the replica, the history and the bytes read decide all replies and the history afterwards, if no line is
/// refused as out of memory.
pub fn transcript_is_decided()
    ensures { TranscriptIsDecided }
{}

/// States that an edit's delta always fits on a line, whatever the replica and the state, if the delta is in range
/// (`fit`).
///
/// The edit changes one cell, or is a batch of at most as many cells as a row has. A delta is in range if its cells and
/// their states are (`IsLawful` of `ps_wire`). If all deltas of a history are in range, an edit over that history makes
/// a delta in range (`lawful`).
pub fn edit_lines_fit()
    ensures fit { EditLinesFit }
    ensures lawful { EditsAreLawful }
{}
