//! Moving the heads of an order to its front.

ghost use Rattle.std.specs.Prelude.{◌≡◌, ◌+◌, ◌<◌, ◌≤◌, length, take, drop, slice_index};
ghost use Rattle.order.specs.Orders.{head, heads_first};
ghost use Rattle.std.specs.List.{insert};

use pairs::PairTable;

// Whether no partner of the place stands before it.
fn is_head<T: PairTable>(table: &T, before: &[u16], place: u16) -> bool
    ensures { result ≡ head (T.meaning table.now).partners before.now place }
{
    before
        .iter()
        .all(|&other| !table.partners(place as usize, other as usize))
}

// Moves the entry at `from` up to `to`.
fn move_up(order: &mut [u16], from: usize, to: usize)
    requires up { to ≤ from }
    requires within { from < length order.old }
    ensures front { take (from + 1) order.new ≡ insert (take from order.old) to (slice_index order.old from) }
    ensures rest { drop (from + 1) order.new ≡ drop (from + 1) order.old }
{
    order[to..from + 1].rotate_right(1);
}

// Moves the heads of the order to its front.
pub(crate) fn heads_first<T: PairTable>(table: &T, order: &mut [u16])
    ensures { order.new ≡ heads_first (T.meaning table.now).partners order.old }
{
    let mut count = 0;
    // By place: each turn reads the entries before the place, and writes them and the entry there
    for i in 0..order.len() {
        let place = order[i];
        if is_head(table, &order[..i], place) {
            move_up(order, i, count);
            count += 1;
        }
    }
}
