//! The call.

ghost use Rattle.std.specs.Prelude.{◌≡◌, length, is_ok, MatchResult};
ghost use Rattle.order.specs.Orders.{Ordered, holds_all};
ghost use Rattle.refusal.specs.Refusals.{refused};

use crate::fronts::heads_first;
use crate::takes::take_all;
use crate::waiting::Waiting;
use pairs::PairTable;
use refusal::{Layer, Reason, Refusal};

/// Writes the degeneracy order of the table to the front of `order`; tells how many places it has, and the largest number
/// of later partners that a place has in it, which no order of the places makes smaller. What lies beyond stays, and
/// `space` is free afterwards. Refuses an `order` or a `space` shorter than the table (`ShortSpace`) and alters nothing
/// then.
pub fn degeneracy_order<T: PairTable>(
    table: &T,
    order: &mut [u16],
    space: &mut [Waiting],
) -> Result<(usize, usize), Refusal>
    ensures test { is_ok result ≡ holds_all (T.meaning table.now) order.old space.old }
    ensures answer { MatchResult result (λ a. Ordered (T.meaning table.now) a.0 a.1 order.old order.new) (λ x. (x ≡ refused Reason.ShortSpace Layer.Table 0) × (order.new ≡ order.old) × (space.new ≡ space.old)) }
    ensures space { length space.new ≡ length space.old }
{
    let n = table.size();
    if order.len() < n || space.len() < n {
        return Err(Refusal::new(Reason::ShortSpace, Layer::Table, 0));
    }
    let front = &mut order[..n];
    let largest = take_all(table, front, space);
    heads_first(table, front);
    Ok((n, largest))
}
