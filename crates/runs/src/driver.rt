//! A run: calls on a new walk, then steps alone.

ghost use Rattle.std.specs.Prelude.{◌≡◌, ℕ, List, map};
ghost use Rattle.completion.specs.Standings.{members_of};
ghost use Rattle.model.specs.Obeys.{GivesRest};
ghost use Rattle.model.specs.Runs.{Follows, asked, told};

use crate::Rest;
use crate::calls::make_all;
use completion::Standing;
use model::Exchange;
use pairs::PairTable;
use walk::Walk;

// What the walk keeps; then steps alone, which put their sets into the room: how many, and whether they are all. A room that
// is full asks for one step more, which tells.
fn step_out<T: PairTable>(walk: &mut Walk<T>, room: &mut [Standing]) -> Rest
    ensures table { walk.new.table ≡ walk.old.table }
    ensures kept { result.kept ≡ walk.old.standing }
    ensures gives { let graph = T.PairTable.meaning walk.old.table in
        let pin = members_of walk.old.standing in
        GivesRest graph pin room.old room.new result.count result.all }
{
    let kept = *walk.standing();
    for (count, set) in room.iter_mut().enumerate() {
        if walk.step().is_err() {
            return Rest {
                kept,
                count,
                all: true,
            };
        }
        *set = *walk.standing();
    }
    Rest {
        kept,
        count: room.len(),
        all: walk.step().is_err(),
    }
}

/// Makes a new walk on the table, makes the calls in order and answers each in its place, then steps alone and puts the sets
/// into the room, all of them or as many as there is room for. Hands back the table, and tells what the walk kept after the
/// calls, how many sets it put into the room, and whether they are all that were left.
pub fn run<T: PairTable>(table: T, exchanges: &mut [Exchange], room: &mut [Standing]) -> (T, Rest)
    ensures table { result.0 ≡ table }
    ensures follows { (L : List (List ℕ)) × (R : List (List ℕ))
        × Follows (T.PairTable.meaning table) L R (map asked exchanges.old) (map told exchanges.new) result.1.kept
        room.old room.new result.1.count result.1.all }
{
    let mut walk = Walk::new(table);
    make_all(&mut walk, exchanges);
    let rest = step_out(&mut walk, room);
    (walk.put_away(), rest)
}
