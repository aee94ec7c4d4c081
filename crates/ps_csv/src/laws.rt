//! Laws of tables.

ghost use Rattle.ps_csv.specs.Laws.{EntriesComeBack, OneCountFits};

/// States that a rectangle's entries, exported and then imported into an empty sheet, are the same when exported again.
/// The second export is that of a rectangle of the same size that begins at the first cell of the grid.
pub fn entries_come_back()
    ensures { EntriesComeBack }
{}

/// States that a stopped import has one count: only one number of assigned records fits the table and the sheet.
pub fn one_count_fits()
    ensures { OneCountFits }
{}
