//! The completion of a clique, gathered place by place.

ghost use Rattle.std.specs.Prelude.{◌≡◌, ◌&&◌, ◌||◌};
ghost use Rattle.cliques.specs.Sets.{below, has, partner_of_all, Clique};
ghost use Rattle.cliques.specs.Completion.{completion};
ghost use Rattle.cliques.specs.Shortcuts.{append_pass};
ghost use Rattle.completion.specs.Standings.{members_of, standing_of};

use crate::sets::{is_member, members_below, partner_of_all};
use crate::standing::Standing;
use pairs::PairTable;

// Whether `k` is a member, or a partner of every member and of all that is gathered.
fn joins<T: PairTable>(table: &T, k: usize, set: &[u16], got: &[u16]) -> bool
    ensures { result ≡ (has k set.now || (partner_of_all (T.PairTable.meaning table.now) k set.now && partner_of_all (T.PairTable.meaning table.now) k got.now)) }
{
    is_member(k, set) || (partner_of_all(table, k, set) && partner_of_all(table, k, got))
}

/// The completion of a clique, gathered in rising order: each place that is a member, or a partner of every member and of
/// all gathered so far. Of a list that is no clique it is what that comes to.
pub fn completed<T: PairTable>(table: &T, set: &[u16]) -> Standing
    ensures clique { Clique (T.PairTable.meaning table.now) set.now → result ≡ standing_of (completion (T.PairTable.meaning table.now) set.now) }
    ensures pass { result ≡ standing_of (append_pass (T.PairTable.meaning table.now) (T.PairTable.meaning table.now).size set.now) }
{
    let mut got = Standing::empty();
    for k in 0..table.size() {
        if joins(table, k, set, got.members()) {
            got.push(k as u16);
        }
    }
    got
}

/// The completion of the members of a set below `v`.
pub fn completed_below<T: PairTable>(table: &T, set: &Standing, v: u16) -> Standing
    ensures { result ≡ standing_of (append_pass (T.PairTable.meaning table.now) (T.PairTable.meaning table.now).size (below v (members_of set.now))) }
{
    completed(table, members_below(set, v).members())
}
