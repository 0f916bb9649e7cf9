//! A key that its type's `Ord` and its `Order` put in opposite orders: a sorted slice goes by `Order` alone.

ghost use Rattle.std.specs.Prelude.{◌≡◌, nat_le};
ghost use Rattle.std.proofs.Common.{rules};

use super::keys::{Keyed, Order, TotalOrder};
use super::slice::SortedSlice;

// A number that comes before the smaller ones; its `Ord` has it behind them.
#[derive(Clone, Copy, PartialEq, Eq, PartialOrd, Ord, Debug)]
struct Falling {
    number: u16,
}

impl Order for Falling {
    ghost upto = { λ x y. nat_le y.number x.number };

    ghost total = { Prim.search rules };

    ghost transitive = { Prim.search rules };

    fn at_most(&self, other: &Falling) -> bool {
        other <= self
    }
}

impl TotalOrder for Falling {
    ghost ties = { Prim.search rules };
}

impl Keyed for Falling {
    type Key = Falling;

    ghost keyed = { λ f. f };

    fn key(&self) -> Falling {
        *self
    }
}

// Puts a number among those held, and takes the largest.
fn replace_largest(held: &mut SortedSlice<Falling>, number: u16) -> Option<u16> {
    held.insert(Falling { number }).ok()?;
    let largest = held.pop_first().ok()?;
    Some(largest.number)
}
