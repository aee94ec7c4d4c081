//! A law of desks: a function whose contract states a fact.

ghost use Rattle.std.specs.Prelude.{IfSome};
ghost use mathlib.Core.List.{IsPrefix};
ghost use Rattle.ps_face.specs.Legal.{history_of};
ghost use Rattle.ps_desk.specs.Passes.{IsShown};

use crate::name::DeskName;
use crate::pass::Pass;
use crate::shot::Shot;
use crate::shown_position::ShownPosition;
use ps_grid::Cell;

/// Makes `pass` learn what another session has `seen`, and returns what a cell then shows. Returns `None` as
/// [`Pass::read`] does.
///
/// The contract states that a person whose new session gets another slot still sees all that the last session's replies
/// said. `seen` is the token with which the last session ended ([`crate::Seat::leave`]), and `pass` is that of the new
/// slot. The value is settled over a history that begins with all that the last session had seen.
pub fn coming_back_shows_what_was_replied<L: DeskName>(
    pass: &mut Pass<L>,
    seen: &ShownPosition<L>,
    cell: Cell,
) -> Option<Shot>
    ensures seen { IsPrefix seen.now pass.new.list }
    ensures value { IfSome result (λ s. IsShown (history_of L.opening pass.new.list) cell s.value) }
{
    pass.learn(seen);
    pass.read(cell)
}
