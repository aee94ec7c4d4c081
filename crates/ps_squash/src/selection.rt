//! Which part of the lines is squashed, and what is left out.
ghost use Rattle.std.specs.Prelude.{◌≡◌, ◌∷◌, [], None};
ghost use Rattle.ps_squash.specs.Inside.{is_taken};
ghost use Rattle.ps_squash.specs.Selected.{still_after};

/// The part of the lines that [`squash_in_part`](crate::squash_in_part) takes. A change line is a line with a delta.
#[derive(Clone, Copy, Debug, PartialEq, Eq)]
pub struct Selection {
    /// The number of change lines to take, counted from the first; `None` takes all change lines.
    pub until: Option<u64>,
    /// The replica whose assignments, counts and choices are left out of each delta; `None` leaves out nothing.
    pub without: Option<u8>,
}

impl Selection {
    /// Returns the selection that takes everything.
    pub fn all() -> Selection
        ensures until { result.until ≡ None }
        ensures without { result.without ≡ None }
    {
        Selection {
            until: None,
            without: None,
        }
    }

    /// Counts one more change line, and returns whether it is taken. The selection is then that of the lines after it.
    pub(crate) fn count_one(&mut self) -> bool
        ensures taken { result ≡ is_taken self.old }
        ensures still { self.new ≡ still_after self.old 1 }
    {
        match self.until {
            None => true,
            Some(0) => false,
            Some(count) => {
                self.until = Some(count - 1);
                true
            }
        }
    }
}

/// What [`squash_in_part`](crate::squash_in_part) left out of the lines that it read.
#[derive(Clone, Copy, Debug, PartialEq, Eq)]
pub struct LeftOut {
    /// The number of change lines that were read; 2^64 - 1 stands for this number or any greater.
    pub read: u64,
    /// The number of change lines that were left out because they come after the first `Selection::until` change lines;
    /// 2^64 - 1 stands for this number or any greater.
    pub lines: u64,
    /// The number of cells that lost an assignment, a count or a choice of the replica `Selection::without`.
    pub cells: u64,
}
