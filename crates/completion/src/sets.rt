//! Tests and parts of a set of places.

ghost use Rattle.std.specs.Prelude.{◌≡◌, ◌&&◌, nat_lt};
ghost use Rattle.cliques.specs.Completion.{partners_below};
ghost use Rattle.cliques.specs.Sets.{below, has, partner_of_all, smallest};
ghost use Rattle.completion.specs.Standings.{members_of, standing_of};

use crate::standing::Standing;
use pairs::PairTable;

/// Tells whether `w` is a member.
// The same test stands in `pairs`, private to its own lists and by another definition. One for both would be a public function
// more and a lemma that the definitions agree, and no plainer.
pub fn is_member(w: usize, set: &[u16]) -> bool
    ensures { result ≡ has w set.now }
{
    set.iter().any(|&x| w == x as usize)
}

/// The first entry, which is the smallest member of a rising list; 0 where there is none.
// No `Option`: the largest barrier is a plain maximum that starts from it.
pub fn smallest(set: &[u16]) -> u16
    ensures { result ≡ smallest set.now }
{
    set.first().copied().unwrap_or(0)
}

/// The members of a set below `v`.
pub fn members_below(set: &Standing, v: u16) -> Standing
    ensures kept { result ≡ standing_of (below v (members_of set.now)) }
    ensures members { members_of result ≡ below v (members_of set.now) }
{
    set.filter(|x| x < v)
}

// Whether `x` is below `v` and a partner of it.
fn is_partner_below<T: PairTable>(table: &T, v: usize, x: usize) -> bool
    ensures { result ≡ (nat_lt x v && (T.PairTable.meaning table.now).partners v x) }
{
    x < v && table.partners(v, x)
}

/// The members of a set below `v` that are partners of `v`.
pub fn partners_below<T: PairTable>(table: &T, set: &Standing, v: usize) -> Standing
    ensures { result ≡ standing_of (partners_below (T.PairTable.meaning table.now) v (members_of set.now)) }
{
    set.filter(|x| is_partner_below(table, v, x as usize))
}

/// Tells whether `w` is a partner of every member.
pub fn partner_of_all<T: PairTable>(table: &T, w: usize, set: &[u16]) -> bool
    ensures { result ≡ partner_of_all (T.PairTable.meaning table.now) w set.now }
{
    set.iter().all(|&x| table.partners(w, x as usize))
}
