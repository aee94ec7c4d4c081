//! The rectangles that a formula stores.

ghost use Rattle.std.specs.Prelude.{◌≡◌};
ghost use Rattle.ps_formula.specs.Inside.Parts.{in_line};

use ps_grid::Rect;

/// Rectangles, from left to right. Most formulas have at most three, which take no memory on the heap.
#[derive(Drop)]
pub(crate) enum Rects {
    Empty,
    One([Rect; 1]),
    Two([Rect; 2]),
    Three([Rect; 3]),
    Many(Vec<Rect>),
}

impl Rects {
    /// Returns the rectangles.
    pub(crate) fn as_slice(&self) -> &[Rect]
        ensures { result.now ≡ in_line self.now }
    {
        match self {
            Rects::Empty => &[],
            Rects::One(rects) => rects,
            Rects::Two(rects) => rects,
            Rects::Three(rects) => rects,
            Rects::Many(rects) => rects,
        }
    }
}
