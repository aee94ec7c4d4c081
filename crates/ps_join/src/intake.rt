//! The source of the deltas that a relay merges.
ghost use Rattle.std.specs.Prelude.{◌≡◌, ℕ, Bool, List, Option, true};
ghost use Rattle.std.specs.Io.KnownBytes.{Consumes, IsAtEnd};
ghost use Rattle.ps_join.specs.Joins.{merge_text};

/// What came in at an [`Intake`].
#[derive(Clone, Copy)]
pub enum Came {
    /// A delta, which is now in hand: the intake holds it until it is settled.
    Delta,
    /// No delta for now.
    Nothing,
    /// No delta, and none will come in later.
    Ended,
}

/// A source of deltas for a relay, one after another.
///
/// At most one delta is *in hand*: [`Intake::next`] takes a delta in hand, and the intake holds the delta until
/// [`Intake::settle`]. A delta stays in hand even if the connection to the server is lost, so that a later relay merges
/// it again.
pub trait Intake {
    /// The merge lines of all deltas that aren't settled yet, if the intake shows them.
    ghost to_come: { Self → Option (List ℕ) };

    /// The line of the delta in hand.
    ghost held: { Self → List ℕ };

    /// Whether a delta is in hand.
    ghost holds: { Self → Bool };

    /// Takes the next delta in hand, unless a delta is in hand already. Returns whether a delta is in hand then, and if
    /// not, whether the source has ended. Doesn't wait.
    fn next(&mut self) -> Came
        ensures same { to_come self.new ≡ to_come self.old }
        ensures held { result ≡ Came.Delta → holds self.new ≡ true }
        ensures ended { result ≡ Came.Ended → IsAtEnd (to_come self.new) };

    /// Returns the line of the delta in hand, without a line feed.
    fn delta(&self) -> &[u8]
        ensures { result.now ≡ held self.now };

    /// Ends the hold on the delta in hand, to which the server has replied. `refusal` is the server's `err` reply, or
    /// `None` if the server has merged the delta.
    ///
    /// Cost: linear in the bytes of the reply.
    fn settle(&mut self, refusal: Option<&str>)
        requires held { holds self.old ≡ true }
        ensures settled { Consumes (to_come self.old) (to_come self.new) (merge_text (held self.old)) };

    /// Returns once a delta came in, the server sent something, or a while passed.
    ///
    /// Cost: the implementation's own, and the time that it waits.
    fn await_more(&mut self)
        ensures same { to_come self.new ≡ to_come self.old }
        ensures held { held self.new ≡ held self.old };
}
