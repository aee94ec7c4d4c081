//! The order of contents.

ghost use Rattle.std.specs.Prelude.{◌≡◌, refl};
ghost use Rattle.std.specs.Cmp.{partial_equiv_from_equiv, partial_order_from_total};
ghost use Rattle.std.specs.Ordering.{as_partial_cmp, int_cmp};
ghost use Rattle.ps_content.specs.Order.{content_cmp, content_eq, kind_place, number_in, text_in};
ghost use Rattle.ps_content.specs.OrderLaws.{content_cmp-IsAntisymmetric, content_cmp-total, content_eq-equivalence};

use crate::content::Content;
use ps_lattice::Linear;
use std::cmp::Ordering;

impl Content {
    /// The number of a content that is one, and 0 for other contents.
    fn number(&self) -> i64
        ensures { result ≡ number_in self.now }
    {
        match self {
            Content::Number(number) => *number,
            Content::Blank | Content::Text(_) | Content::Formula(_) => 0,
            Content::Tally | Content::Choice => 0,
        }
    }

    /// The order of two contents by `number`.
    fn cmp_numbers(&self, other: &Content) -> Ordering
        ensures { result ≡ int_cmp (number_in self.now) (number_in other.now) }
    {
        let (number, another) = (self.number(), other.number());
        number.cmp(&another)
    }

    /// The bytes of a content that is a text, and no bytes for other contents.
    fn text(&self) -> &[u8]
        ensures { result.now ≡ text_in self.now }
    {
        match self {
            Content::Text(label) => label.label().bytes(),
            Content::Blank | Content::Number(_) | Content::Formula(_) => &[],
            Content::Tally | Content::Choice => &[],
        }
    }

    /// The position of the content's kind among the kinds.
    fn kind_place(&self) -> u8
        ensures { result ≡ kind_place self.now }
    {
        match self {
            Content::Blank => 0,
            Content::Number(_) => 1,
            Content::Text(_) => 2,
            Content::Formula(_) => 3,
            Content::Tally => 4,
            Content::Choice => 5,
        }
    }
}

/// Contents are equal if they are of one kind, and have the same number, text or canonical formula.
impl PartialEq for Content {
    ghost eq = { content_eq };

    fn eq(&self, other: &Content) -> bool {
        self.cmp(other).is_eq()
    }

    ghost laws = { partial_equiv_from_equiv content_eq-equivalence };
}

impl Eq for Content {
    ghost laws = { content_eq-equivalence };
}

/// Blank comes first, then numbers by number, texts by their bytes, formulas by the bytes of their canonical texts,
/// then tally and choice.
///
/// Cost: linear in the texts that are compared.
impl Ord for Content {
    ghost cmp = { content_cmp };

    fn cmp(&self, other: &Content) -> Ordering {
        let kinds = self.kind_place().cmp(&other.kind_place());
        let numbers = self.cmp_numbers(other);
        let texts = self.text().cmp(&other.text());
        let formulas = self.formula().cmp(&other.formula());
        kinds.then(numbers.then(texts.then(formulas)))
    }

    ghost total = { content_cmp-total };

    ghost matches_partial_cmp = { λ x y. refl };

    ghost matches_eq = { λ x y. refl };
}

impl PartialOrd for Content {
    ghost partial_cmp = { as_partial_cmp content_cmp };

    fn partial_cmp(&self, other: &Content) -> Option<Ordering> {
        Some(self.cmp(other))
    }

    ghost laws = { partial_order_from_total content_cmp-total };
}

impl Linear for Content {
    ghost no_ties = { content_cmp-IsAntisymmetric };
}
