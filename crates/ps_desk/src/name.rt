//! The name that a desk and its passes share.

use ps_face::Named;
use std::marker::Brand;

/// A type that names one desk, so that the desk and its passes fit together. In contracts the type gives the desk's
/// published copies ([`Named`]) and the replica number of the desk's sheet. The trait has no methods.
pub trait DeskName: Named {
    ghost use Rattle.std.specs.Prelude.{ℕ};

    ghost replica: { ℕ };
}

impl DeskName for Brand {
    ghost replica = { 1 };
}
