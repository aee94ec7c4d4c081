//! What a change reports: the version, and the numbers of evaluated formulas, of cyclic formulas, and of levels of the
//! other formulas that the change reaches. The expected numbers are worked out by hand.

use crate::sheet::changes::Asked::Set;
use crate::sheet::changes::CYCLE;
use crate::sheet::changes::Part::{self, Assigned};
use crate::sheet::changes::Seen::{Num, Text};
use crate::sheet::refused::Tried::{One, Received};
use crate::sheet::refused::Way::Made;
use crate::sheet::refused::{Tries, check};

/// A formula that refers to a cell by two ranges is evaluated once. Formulas that refer to a changed cell are
/// evaluated, and then those that refer to them.
static REACHED: Tries = Tries {
    way: Made,
    changes: &[
        (One("B1", Set("1")), Ok([1, 0, 0, 0])),
        (One("B2", Set("=[.C1]")), Ok([2, 1, 0, 1])),
        (One("B3", Set("3")), Ok([3, 0, 0, 0])),
        (One("C1", Set("2")), Ok([4, 1, 0, 1])),
        (
            One("A1", Set("=SUM([.B1:.B2];[.B2:.B3])")),
            Ok([5, 1, 0, 1]),
        ),
        (One("C1", Set("5")), Ok([6, 2, 0, 2])),
    ],
    shown: &[("A1", Num(14))],
};

/// If a formula keeps its value, the formulas that refer only to it aren't evaluated. The levels count them all the
/// same.
static STAYING: Tries = Tries {
    way: Made,
    changes: &[
        (One("A1", Set("5")), Ok([1, 0, 0, 0])),
        (One("B1", Set("=[.A1]>0")), Ok([2, 1, 0, 1])),
        (One("C1", Set("=[.B1]+1")), Ok([3, 1, 0, 1])),
        (One("D1", Set("=[.A1]*0")), Ok([4, 1, 0, 1])),
        (One("A1", Set("6")), Ok([5, 2, 0, 2])),
        (One("A1", Set("-1")), Ok([6, 3, 0, 2])),
        (One("A1", Set("-1")), Ok([7, 0, 0, 2])),
    ],
    shown: &[("B1", Num(0)), ("C1", Num(1)), ("D1", Num(0))],
};

/// One number after another in A1. Between them, formulas that refer to A1 are entered, and once a formula in A1.
static FOLLOWED: Tries = Tries {
    way: Made,
    changes: &[
        (One("A1", Set("1")), Ok([1, 0, 0, 0])),
        (One("B1", Set("=[.A1]")), Ok([2, 1, 0, 1])),
        (One("A1", Set("2")), Ok([3, 1, 0, 1])),
        (One("A1", Set("3")), Ok([4, 1, 0, 1])),
        (One("C1", Set("=[.B1]+[.A1]")), Ok([5, 1, 0, 1])),
        (One("A1", Set("4")), Ok([6, 2, 0, 2])),
        (One("A1", Set("5")), Ok([7, 2, 0, 2])),
        (One("B1", Set("9")), Ok([8, 1, 0, 1])),
        (One("A1", Set("6")), Ok([9, 1, 0, 1])),
        (One("A1", Set("=[.C1]")), Ok([10, 0, 2, 0])),
        (One("A1", Set("7")), Ok([11, 1, 0, 1])),
        (One("A1", Set("8")), Ok([12, 1, 0, 1])),
    ],
    shown: &[("C1", Num(17))],
};

/// A number and a text that look alike are two values: formulas that refer to the cell are evaluated.
static ALIKE: Tries = Tries {
    way: Made,
    changes: &[
        (One("A1", Set("5")), Ok([1, 0, 0, 0])),
        (One("B1", Set("=COUNT([.A1])")), Ok([2, 1, 0, 1])),
        (One("A1", Set("'5")), Ok([3, 1, 0, 1])),
    ],
    shown: &[("B1", Num(0)), ("A1", Text("5"))],
};

/// A delta in which `B1` ends the cycle of `A1` and `B1`, and `C1` closes one with `A1`.
const TURNED: &[(&str, Part)] = &[
    ("A1", Assigned(2, 2, "=[.C1]")),
    ("B1", Assigned(2, 2, "4")),
    ("C1", Assigned(2, 2, "=[.A1]")),
];

/// One delta ends a cycle and begins another: the cells of the old one are evaluated, and those that lead to the new
/// one aren't.
static TURNING: Tries = Tries {
    way: Made,
    changes: &[
        (One("A1", Set("=[.B1]")), Ok([1, 1, 0, 1])),
        (One("B1", Set("=[.A1]")), Ok([2, 0, 2, 0])),
        (One("C1", Set("7")), Ok([3, 0, 0, 0])),
        (One("D1", Set("=[.B1]+[.C1]")), Ok([4, 0, 1, 0])),
        (One("E1", Set("=[.B1]*2")), Ok([5, 0, 1, 0])),
        (Received(TURNED), Ok([6, 1, 3, 1])),
    ],
    shown: &[
        ("A1", CYCLE),
        ("C1", CYCLE),
        ("D1", CYCLE),
        ("B1", Num(4)),
        ("E1", Num(8)),
    ],
};

/// Two formulas that refer to each other are cyclic, and so is one that refers to them; a number there ends it.
static TWO_AND_ONE: Tries = Tries {
    way: Made,
    changes: &[
        (One("A1", Set("=[.B1]")), Ok([1, 1, 0, 1])),
        (One("B1", Set("=[.A1]")), Ok([2, 0, 2, 0])),
        (One("C1", Set("=[.A1]+1")), Ok([3, 0, 1, 0])),
        (One("B1", Set("4")), Ok([4, 2, 0, 2])),
    ],
    shown: &[("A1", Num(4)), ("B1", Num(4)), ("C1", Num(5))],
};

/// B1 refers to A1, C1 to B1, and so on to E1: a change of A1 has four levels of one cell each.
static CHAIN: Tries = Tries {
    way: Made,
    changes: &[
        (One("B1", Set("=[.A1]")), Ok([1, 1, 0, 1])),
        (One("C1", Set("=[.B1]")), Ok([2, 1, 0, 1])),
        (One("D1", Set("=[.C1]")), Ok([3, 1, 0, 1])),
        (One("E1", Set("=[.D1]")), Ok([4, 1, 0, 1])),
        (One("A1", Set("5")), Ok([5, 4, 0, 4])),
    ],
    shown: &[("E1", Num(5))],
};

/// When A1 changes, A1 is on level 1, B1 and C1 are on level 2, and D1 is on level 3.
static DIAMOND: Tries = Tries {
    way: Made,
    changes: &[
        (One("A1", Set("=1")), Ok([1, 1, 0, 1])),
        (One("B1", Set("=[.A1]")), Ok([2, 1, 0, 1])),
        (One("C1", Set("=[.A1]")), Ok([3, 1, 0, 1])),
        (One("D1", Set("=[.A1]+[.B1]+[.C1]")), Ok([4, 1, 0, 1])),
        (One("E1", Set("=[.F1]")), Ok([5, 1, 0, 1])),
        (One("A1", Set("=2")), Ok([6, 4, 0, 3])),
    ],
    shown: &[("D1", Num(6))],
};

/// A2 lies in both ranges of B1, and counts once, whether it has a level or is cyclic.
static OVERLAPPING: Tries = Tries {
    way: Made,
    changes: &[
        (One("A2", Set("=[.A1]")), Ok([1, 1, 0, 1])),
        (
            One("B1", Set("=SUM([.A1:.A2];[.A2:.A3])")),
            Ok([2, 1, 0, 1]),
        ),
        (One("A1", Set("1")), Ok([3, 2, 0, 2])),
        (One("A1", Set("=[.A2]")), Ok([4, 0, 3, 0])),
    ],
    shown: &[("B1", CYCLE)],
};

/// A change of D1 reaches C1. C1 also refers to A1, which the change doesn't reach and which is on a cycle. So C1 is
/// cyclic.
static OUTSIDE: Tries = Tries {
    way: Made,
    changes: &[
        (One("A1", Set("=[.B1]")), Ok([1, 1, 0, 1])),
        (One("B1", Set("=[.A1]")), Ok([2, 0, 2, 0])),
        (One("C1", Set("=[.D1]+[.A1]")), Ok([3, 0, 1, 0])),
        (One("E1", Set("=[.D1]")), Ok([4, 1, 0, 1])),
        (One("D1", Set("5")), Ok([5, 1, 1, 1])),
    ],
    shown: &[],
};

/// The last change ends the cycle of A1 and B1: A1 no longer refers to B1. That gives two levels, and no cyclic cell.
static BEFORE: Tries = Tries {
    way: Made,
    changes: &[
        (One("A1", Set("=[.B1]")), Ok([1, 1, 0, 1])),
        (One("B1", Set("=[.A1]")), Ok([2, 0, 2, 0])),
        (One("A1", Set("=1")), Ok([3, 2, 0, 2])),
    ],
    shown: &[],
};

/// Makes the changes of each list at an empty sheet of its own, and checks what they report and what cells then show.
#[test]
fn changes_report_what_they_reach(rt: HostRuntime) {
    for tries in [
        &REACHED,
        &STAYING,
        &FOLLOWED,
        &ALIKE,
        &TURNING,
        &TWO_AND_ONE,
        &CHAIN,
        &DIAMOND,
        &OVERLAPPING,
        &OUTSIDE,
        &BEFORE,
    ] {
        check(&rt, rt.alloc(), tries);
    }
}
