//! Ghost counts of what happens in a session, which contracts alone see.
ghost use Rattle.std.specs.Prelude.{◌≡◌};

use std::sync::ledger::Blank;

/// Blanks (new ghost counts, which only contracts see) for the failures of a session's input and output, and for the
/// session's evaluations.
#[derive(Drop)]
pub struct Counts {
    /// The blank for failures of the input.
    pub input: Blank,
    /// The blank for failures of the output.
    pub output: Blank,
    /// The blank for failures of the buffer that holds replies back.
    pub held: Blank,
    /// The blank for evaluations of formulas.
    pub evaluations: Blank,
}

impl Counts {
    /// Creates four blanks, each for a count of 0 that has a single owner. The call takes no memory.
    pub fn new() -> Counts
        ensures input { result.input.parts ≡ 1 }
        ensures output { result.output.parts ≡ 1 }
        ensures held { result.held.parts ≡ 1 }
        ensures evaluations { result.evaluations.parts ≡ 1 }
    {
        Counts {
            input: Blank::new(1),
            output: Blank::new(1),
            held: Blank::new(1),
            evaluations: Blank::new(1),
        }
    }
}
