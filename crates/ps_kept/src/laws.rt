//! Laws of kept sheets, as functions that do nothing: each is its contract.
ghost use Rattle.ps_kept.specs.Laws.{CrashesKeepDigested, CrashesKeepSheets, FaultsComeAfter, OneHistory, ReadAgain};
ghost use Rattle.ps_kept.specs.Laws.{ReadFilesOpen};
ghost use Rattle.ps_kept.specs.Laws.{SquashedFilesRead, StartsMayCrash, StaysNoted, ToldLinesHaveNoDigests};

/// States that the lines of a journal, if they are a beginning of a history, are also a beginning of each longer
/// history that begins with this history.
pub fn longer_histories_fit()
    ensures { StaysNoted }
{}

/// States that the next start reads the file after a crash. The start then reads a beginning of the written history,
/// with all changes that were durable.
pub fn crashes_keep_sheets()
    ensures { CrashesKeepSheets }
{}

/// States what [`crashes_keep_sheets`] states, for a file with digest lines, which are checksums. A start reads the
/// history from the other lines. After a crash all digest lines are right. No history has a line of a digest's form.
pub fn crashes_keep_digested_sheets()
    ensures lines { ToldLinesHaveNoDigests }
    ensures crash { CrashesKeepDigested }
{}

/// States that a file has at most one history. A start refuses a file with a history only when out of memory, or when
/// the device fails.
pub fn one_history_is_read()
    ensures one { OneHistory }
    ensures opens { ReadFilesOpen }
{}

/// States that two starts in a row read the same from a file, even if the first start crashes while it cuts off a torn
/// line.
pub fn starts_read_the_same()
    ensures again { ReadAgain }
    ensures crash { StartsMayCrash }
{}

/// States that a start reads the same join, for the same replica, from a file and from its squashed lines. So the sheet
/// shows the same. Each line of the file must end in a line feed, without a carriage return before it.
pub fn squashed_files_read_the_same()
    ensures { SquashedFilesRead }
{}

/// States that the durable lines survive a crash even if other bytes come after them: a line that the next start
/// refuses stands after all durable lines.
pub fn faults_come_after_the_kept()
    ensures { FaultsComeAfter }
{}
