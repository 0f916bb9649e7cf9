//! Selections of selections, and selections that share a lent table, in generic code.

ghost use Rattle.std.specs.Prelude.{◌≡◌, length, IfSome};
ghost use Rattle.pairs.specs.Lists.{lists_meaning};
ghost use Rattle.pairs.specs.Selections.{selected};

use super::lists::PartnerLists;
use super::selection::Selection;
use super::table::PairTable;

// Whether two places of a selection of a selection are partners, or `None` where a list is refused.
fn partners_twice<T: PairTable>(
    below: T,
    outer: &[u16],
    inner: &[u16],
    u: usize,
    v: usize,
) -> (Option<bool>, T)
    ensures below { result.1 ≡ below }
    ensures answer { IfSome result.0 (λ b. b ≡ (selected (selected (T.PairTable.meaning below) outer.now) inner.now).partners u v) }
{
    // A refusal hands the table back, and so does this function: neither match is a `?`.
    let middle = match Selection::new(below, outer) {
        Ok(middle) => middle,
        Err((_, below)) => return (None, below),
    };
    let top = match Selection::new(middle, inner) {
        Ok(top) => top,
        Err((_, middle)) => return (None, middle.release()),
    };
    let answer = top.partners(u, v);
    (Some(answer), top.release().release())
}

// The sizes of two selections that share one lent table, or `None` where a list is refused.
fn shared_sizes<T: PairTable>(below: &T, one: &[u16], other: &[u16]) -> Option<(usize, usize)>
    ensures { IfSome result (λ s. (s.0 ≡ length one.now) × (s.1 ≡ length other.now)) }
{
    let first = Selection::new(below, one).ok()?;
    let second = Selection::new(below, other).ok()?;
    Some((first.size(), second.size()))
}

// Whether two places of a selection of a selection of partner lists are partners: the generic code over a lent table.
fn listed_twice(
    lists: PartnerLists<'_>,
    outer: &[u16],
    inner: &[u16],
    u: usize,
    v: usize,
) -> Option<bool>
    ensures { IfSome result (λ b. b ≡ (selected (selected (lists_meaning lists.entry.ends.now lists.entry.entries.now) outer.now) inner.now).partners u v) }
{
    let (answer, _) = partners_twice(&lists, outer, inner, u, v);
    answer
}
