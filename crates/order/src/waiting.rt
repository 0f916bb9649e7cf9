//! A place that waits to be taken, as the sorted slice holds it.

ghost use Rattle.order.specs.Orders.{precedes};
ghost use Rattle.std.proofs.Common.{rules};

use sorted::{Keyed, Order, TotalOrder};

/// A place that waits to be taken, and how many of its partners wait. A caller lends space for these.
#[derive(Clone, Copy, PartialEq, Eq, PartialOrd, Ord, Debug)]
pub struct Waiting {
    pub tally: u16,
    pub place: u16,
}

/// Fewer partners come first, and among equals the smaller place.
impl Order for Waiting {
    ghost upto = { λ x y. precedes x.tally x.place y.tally y.place };

    ghost total = { Prim.search rules };

    ghost transitive = { Prim.search rules };

    fn at_most(&self, other: &Waiting) -> bool {
        self <= other
    }
}

/// What ties is the same place with the same number.
impl TotalOrder for Waiting {
    ghost ties = { Prim.search rules };
}

/// The record is its own key.
impl Keyed for Waiting {
    type Key = Waiting;

    ghost keyed = { λ w. w };

    fn key(&self) -> Waiting {
        *self
    }
}
