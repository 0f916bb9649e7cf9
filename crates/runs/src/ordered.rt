//! A run on a table that is put in degeneracy order first.

ghost use Rattle.std.specs.Prelude.{◌≡◌, map, length, is_ok, MatchResult};
ghost use Rattle.model.specs.Runs.{asked, told};
ghost use Rattle.order.specs.Orders.{holds_all};
ghost use Rattle.refusal.specs.Refusals.{refused};
ghost use Rattle.runs.specs.InOrder.{RunsInOrder};

use crate::Rest;
use crate::driver::run;
use completion::Standing;
use model::Exchange;
use order::{Waiting, degeneracy_order};
use pairs::{PairTable, Selection};
use refusal::{Layer, Reason, Refusal};

/// What a run in degeneracy order tells: how many places were put in order, the degeneracy, and what the walk gave.
#[derive(Clone, Copy, PartialEq, Eq, Debug)]
pub struct InOrder {
    pub placed: usize,
    pub degeneracy: usize,
    pub rest: Rest,
}

/// Puts the table's places in degeneracy order at the front of `order`, selects that order, and makes a run on the
/// selection. Refuses where `order` or `waiting` is shorter than the table (`ShortSpace`), and then everything is as it was.
/// The table is handed back in any case.
pub fn run_in_order<T: PairTable>(
    table: T,
    order: &mut [u16],
    waiting: &mut [Waiting],
    exchanges: &mut [Exchange],
    room: &mut [Standing],
) -> (T, Result<InOrder, Refusal>)
    ensures table { result.0 ≡ table }
    ensures test { is_ok result.1 ≡ holds_all (T.PairTable.meaning table) order.old waiting.old }
    ensures answer { MatchResult result.1
        (λ a. RunsInOrder (T.PairTable.meaning table) order.old order.new (map asked exchanges.old) (map told exchanges.new) room.old room.new a.placed a.degeneracy a.rest)
        (λ x. (x ≡ refused Reason.ShortSpace Layer.Table 0) × (order.new ≡ order.old) × (waiting.new ≡ waiting.old) × (exchanges.new ≡ exchanges.old) × (room.new ≡ room.old)) }
    ensures waiting { length waiting.new ≡ length waiting.old }
{
    // Each refusal hands the table back, so neither match is a `?`.
    let (placed, degeneracy) = match degeneracy_order(&table, order, waiting) {
        Ok(found) => found,
        Err(refusal) => return (table, Err(refusal)),
    };
    let selection = match Selection::new(table, &order[..placed]) {
        Ok(selection) => selection,
        // An order of all places is never refused.
        Err((refusal, table)) => return (table, Err(refusal)),
    };
    let (selection, rest) = run(selection, exchanges, room);
    let told = InOrder {
        placed,
        degeneracy,
        rest,
    };
    (selection.release(), Ok(told))
}
