//! The maximal clique that comes next by path.

ghost use Rattle.std.specs.Prelude.{◌≡◌, ◌+◌};
ghost use Rattle.cliques.specs.Paths.{MayStand, NextAfter, path, standing_path};
ghost use Rattle.cliques.specs.Sets.{MaximalClique};
ghost use Rattle.completion.specs.Standings.{members_of};
ghost use Rattle.walk.specs.Search.{Kept, found_set};

use crate::heads::first_root;
use crate::reached::Reached;
use completion::Standing;
use pairs::PairTable;

// The first place after an index.
fn past(index: u16) -> usize
    ensures { result ≡ index + 1 }
{
    index as usize + 1
}

// What comes next after a set: its first child; without one the search climbs to the parent and goes on with the children
// above the parent index that it left, and from a root with the heads. The parent index falls with each climb, so there are
// fewer climbs than places: the loop never runs out, and the `None` behind it is never reached.
fn next_after<T: PairTable>(table: &T, set: &Standing) -> Option<Standing>
    ensures kept { Kept result }
    ensures next { MaximalClique (T.PairTable.meaning table.now) (members_of set.now) → NextAfter (T.PairTable.meaning table.now) (path (T.PairTable.meaning table.now) (members_of set.now)) (found_set result) }
{
    let mut here = Reached::new(table, *set);
    let mut from = past(here.index());
    for _climbed in 0..table.size() {
        if let Some(child) = here.first_child(from) {
            return Some(child);
        }
        from = past(here.index());
        if here.is_root() {
            return first_root(table, from);
        }
        here = here.parent();
    }
    None
}

// What comes next after the set that stands, or what comes first where none does.
pub(crate) fn next_set<T: PairTable>(table: &T, here: &Standing) -> Option<Standing>
    ensures kept { Kept result }
    ensures next { MayStand (T.PairTable.meaning table.now) (members_of here.now) → NextAfter (T.PairTable.meaning table.now) (standing_path (T.PairTable.meaning table.now) (members_of here.now)) (found_set result) }
{
    if here.members().is_empty() {
        first_root(table, 0)
    } else {
        next_after(table, here)
    }
}
