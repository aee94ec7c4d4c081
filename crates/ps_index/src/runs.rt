//! The rows that a formula refers to, run by run.
//!
//! The rows of all columns stand in one line of places, column by column. Each column begins with a place that no
//! formula refers to, and its rows follow. So a run of places never goes from one column into the next.

ghost use Rattle.std.specs.Prelude.{◌≡◌, ℕ, ◌+◌, ◌*◌, ◌/◌, ◌%◌, ◌<◌, ◌≤◌, true, false};
ghost use Rattle.ps_grid.specs.Rectangle.{LiesInGrid};
ghost use Rattle.ps_index.specs.Inside.Places.{IsFirstRun, covers_place, covered};

use ps_grid::{COLUMNS, ROWS, Rect};

/// How many places a column has.
pub(crate) const STRIDE: usize = ROWS + 1;

/// How many places all columns have.
pub(crate) const PLACES: usize = COLUMNS * STRIDE;

/// Where a rectangle lies: its first and last column, from 0, its first and last row, from 1, and their places.
#[derive(Clone, Copy)]
struct Sides {
    /// the first column
    left: usize,
    /// the last column
    right: usize,
    /// the first row
    top: usize,
    /// the last row
    bottom: usize,
    /// the first place: that of the first row in the first column
    first: usize,
    /// the last place: that of the last row in the last column
    last: usize,
}

/// Where the sides of a rectangle lie.
#[inline]
fn sides_of(rect: Rect) -> Sides
    ensures left { result.left ≡ rect.left }
    ensures right { result.right + 1 ≡ rect.left + rect.width }
    ensures top { result.top ≡ rect.top + 1 }
    ensures bottom { result.bottom ≡ rect.top + rect.height }
    ensures first { result.first ≡ result.left * STRIDE + result.top }
    ensures last { result.last ≡ result.right * STRIDE + result.bottom }
    ensures in_grid { LiesInGrid rect }
{
    // known by its contract: the rectangle is in the grid
    let _area = rect.area();
    let corner = rect.top_left();
    let left = corner.column() as usize;
    let top = corner.row() as usize;
    let right = left + rect.width() - 1;
    let bottom = top + rect.height() - 1;
    Sides {
        left,
        right,
        top,
        bottom,
        first: left * STRIDE + top,
        last: right * STRIDE + bottom,
    }
}

/// A run of places.
#[derive(Clone, Copy)]
pub(crate) struct Run {
    /// the first place; `PLACES` where there is no run
    pub(crate) from: usize,
    /// the place after the last one
    pub(crate) end: usize,
}

/// Returns the first run of places from `place` on that the rectangle covers.
fn first_run(rect: Rect, place: usize) -> Run
    requires place { place ≤ PLACES }
    ensures { IsFirstRun (covers_place rect) place result.from result.end }
{
    let sides = sides_of(rect);
    if place <= sides.first {
        return Run {
            from: sides.first,
            end: sides.first + rect.height(),
        };
    }
    if sides.last < place {
        return Run {
            from: PLACES,
            end: PLACES,
        };
    }
    if sides.left == sides.right {
        return Run {
            from: place,
            end: sides.last + 1,
        };
    }
    let column = place / STRIDE;
    let row = place % STRIDE;
    if row <= sides.bottom {
        Run {
            from: column * STRIDE + row.max(sides.top),
            end: column * STRIDE + sides.bottom + 1,
        }
    } else {
        Run {
            from: (column + 1) * STRIDE + sides.top,
            end: (column + 1) * STRIDE + sides.bottom + 1,
        }
    }
}

/// The first run of places from this one on that rectangles cover.
pub(crate) fn next_run(rects: &[Rect], place: usize) -> Run
    requires place { place ≤ PLACES }
    ensures { IsFirstRun (covered rects.now) place result.from result.end }
{
    let mut from = PLACES;
    let mut end = PLACES;
    // the least beginning among the other runs
    let mut other = PLACES;
    for rect in rects {
        let run = first_run(*rect, place);
        if run.from < from {
            other = from;
            from = run.from;
            end = run.end;
        } else {
            other = other.min(run.from);
        }
    }
    if from == PLACES {
        return Run { from, end };
    }
    // mostly no other run meets this one
    if end < other {
        return Run { from, end };
    }
    Run {
        from,
        end: run_end(rects, end),
    }
}

/// Returns the place after the rectangle's last row in this column if the rectangle covers `place`, or else `place`.
fn passed(rect: Rect, place: usize) -> usize
    requires place { place ≤ PLACES }
    ensures from { place ≤ result }
    ensures to { result ≤ PLACES }
    ensures all_before { (q : ℕ) → place ≤ q → q < result → covers_place rect q ≡ true }
    ensures moves { result ≡ place → covers_place rect place ≡ false }
    ensures column { place < result → result ≤ place / STRIDE * STRIDE + STRIDE }
{
    let sides = sides_of(rect);
    if place < sides.first || sides.last < place {
        return place;
    }
    if sides.left == sides.right {
        return sides.last + 1;
    }
    let column = place / STRIDE;
    let row = place % STRIDE;
    if sides.top <= row && row <= sides.bottom {
        column * STRIDE + sides.bottom + 1
    } else {
        place
    }
}

/// Returns a place such that the rectangles cover all places from `place` up to it. It is `place` itself only if they
/// don't cover that.
fn passed_all(rects: &[Rect], place: usize) -> usize
    requires place { place ≤ PLACES }
    ensures from { place ≤ result }
    ensures to { result ≤ PLACES }
    ensures all_before { (q : ℕ) → place ≤ q → q < result → covered rects.now q ≡ true }
    ensures moves { result ≡ place → covered rects.now place ≡ false }
{
    for rect in rects {
        let next = passed(*rect, place);
        if place < next {
            return next;
        }
    }
    place
}

/// The first place from this one on that no rectangle covers.
fn run_end(rects: &[Rect], place: usize) -> usize
    requires place { place ≤ PLACES }
    ensures from { place ≤ result }
    ensures to { result ≤ PLACES }
    ensures all_before { (q : ℕ) → place ≤ q → q < result → covered rects.now q ≡ true }
    ensures uncovered { covered rects.now result ≡ false }
{
    let mut end = place;
    loop {
        let next = passed_all(rects, end);
        if next == end {
            return end;
        }
        end = next;
    }
}
