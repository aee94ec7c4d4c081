//! Laws of journals.
ghost use Rattle.std.specs.Prelude.{◌≡◌, ℕ, List, false, true, length};
ghost use Rattle.ps_keep.specs.Crash.{IsLeft, SurvivesCrashes, SurvivesTears};
ghost use Rattle.ps_keep.specs.Journals.{IsJournal, JournalView};
ghost use Rattle.ps_keep.specs.Lines.{text, whole_lines};

/// Shows that the lines of a journal's file after a crash begin with all that were acknowledged, and are a beginning of
/// all that were noted.
pub fn crashes_keep_the_acknowledged()
    ensures { (j : JournalView) → IsJournal j → SurvivesCrashes j.written j.synced j.kept j.lines }
{}

/// Shows that the lines of a journal's file still begin with all acknowledged ones if a crash has torn the file's end.
/// Then any bytes may stand after the synced ones.
pub fn tears_keep_the_acknowledged()
    ensures { (j : JournalView) → IsJournal j → SurvivesTears j.written j.synced j.kept }
{}

/// Shows that after a failed sync the file has the acknowledged lines and nothing else, if it could be cut.
///
/// The next reader finds exactly these lines, unless the machine crashes before. So no start takes a line for durable
/// that no sync has confirmed.
pub fn failed_journals_leave_the_acknowledged()
    ensures { (j : JournalView) → IsJournal j → j.has_failed ≡ true → j.cut_failed ≡ false
        → (j.found ≡ text j.kept) × (whole_lines j.found ≡ j.kept) }
{}

/// Shows that the lines read from a file, written again, are read as the same lines.
pub fn reading_twice()
    ensures { (bytes : List ℕ) → whole_lines (text (whole_lines bytes)) ≡ whole_lines bytes }
{}

/// Shows that if a start crashes while it cuts off the end of a file, the next one reads the same lines.
pub fn a_start_may_crash()
    ensures { (bytes left : List ℕ) → IsLeft bytes (length (text (whole_lines bytes))) left
        → whole_lines left ≡ whole_lines bytes }
{}
