//! A set that a search has reached, and its children.
//!
//! There is a child at `v`, outside the set, when completing `part`, the members below `v` that are partners of `v`, gives
//! the set back, and completing `part` with `v` adds nothing below `v`. Before each of these two, a test that asks only for
//! partners looks for a place that would spoil it. It never refuses a child, and nearly always spares a completion.

ghost use Rattle.std.specs.Prelude.{◌≡◌, ◌<◌, ℕ, ◌&&◌, ◌==◌, nat_lt, slice_index};
ghost use Rattle.cliques.specs.Sets.{below, partner_of_all, same, smallest};
ghost use Rattle.cliques.specs.Shortcuts.{adds_none_below, append_pass, largest_barrier};
ghost use Rattle.completion.specs.Standings.{barrier_at, members_of, standing_of};
ghost use Rattle.walk.specs.Search.{FirstChild, child_at, entered, enters_at, gives_back, none_joins};

use completion::{
    Barriers, Standing, completed, completed_below, is_member, members_below, partner_of_all,
    partners_below, smallest,
};
use pairs::PairTable;

// A set that a search has reached in a table, and what is worked out of it once: the barriers of all places. There are as
// many barriers as a table may have places, so a place that is asked about has to be below 256.
#[derive(Drop)]
pub(crate) struct Reached<'a, T: PairTable> {
    table: &'a T,
    set: Standing,
    barriers: Barriers,
    ghost each: { (x : ℕ) → slice_index barriers.at x ≡ barrier_at (T.PairTable.meaning table.now) (members_of set) x },
    ghost largest: { barriers.largest ≡ largest_barrier (T.PairTable.meaning table.now) (T.PairTable.meaning table.now).size (members_of set) },
}

impl<'a, T: PairTable> Reached<'a, T> {
    // Works out what is needed at a set.
    pub(crate) fn new(table: &'a T, set: Standing) -> Reached<'a, T>
        ensures table { result.table.now ≡ table.now }
        ensures set { result.set ≡ set }
    {
        let barriers = Barriers::of(table, set.members());
        Reached {
            table,
            set,
            barriers,
        }
    }

    // The parent index.
    pub(crate) fn index(&self) -> u16
        ensures { result ≡ self.now.barriers.largest }
    {
        self.barriers.largest
    }

    // Whether the set is a root: one whose parent index is its smallest member.
    pub(crate) fn is_root(&self) -> bool
        ensures { result ≡ (self.now.barriers.largest == smallest (members_of self.now.set)) }
    {
        self.barriers.largest == smallest(self.set.members())
    }

    // Reaches the parent, the completion of the members below the parent index.
    pub(crate) fn parent(&self) -> Reached<'a, T>
        ensures table { result.table.now ≡ self.now.table.now }
        ensures set { result.set ≡ standing_of (append_pass (T.PairTable.meaning self.now.table.now) (T.PairTable.meaning self.now.table.now).size (below self.now.barriers.largest (members_of self.now.set))) }
    {
        let parent = completed_below(self.table, &self.set, self.barriers.largest);
        Reached::new(self.table, parent)
    }

    // Whether a place has a barrier and is a partner of all of `part`.
    fn joins(&self, part: &[u16], w: usize) -> bool
        requires { w < 256 }
        ensures { result ≡ (nat_lt 0 (slice_index self.now.barriers.at w) && partner_of_all (T.PairTable.meaning self.now.table.now) w part.now) }
    {
        0 < self.barriers.at[w] && partner_of_all(self.table, w, part)
    }

    // Whether no place with a barrier at the set is a partner of all of `part`: one that is would join the completion of
    // `part`, and stands outside the set.
    fn none_joins(&self, part: &[u16]) -> bool
        ensures { result ≡ none_joins (T.PairTable.meaning self.now.table.now) self.now.barriers.at part.now }
    {
        !(0..self.table.size()).any(|w| self.joins(part, w))
    }

    // Whether completing `part` gives the set.
    fn gives_back(&self, part: &[u16]) -> bool
        ensures { result ≡ gives_back (T.PairTable.meaning self.now.table.now) self.now.barriers.at part.now (members_of self.now.set) }
    {
        self.none_joins(part) && completed(self.table, part).members() == self.set.members()
    }

    // Whether `v` is outside the set, and completing `part`, of at least one member, gives the set.
    fn enters_at(&self, part: &[u16], v: usize) -> bool
        ensures { result ≡ enters_at (T.PairTable.meaning self.now.table.now) self.now.barriers.at part.now (members_of self.now.set) v }
    {
        !is_member(v, self.set.members()) && !part.is_empty() && self.gives_back(part)
    }

    // The child at `v`, if there is one.
    fn child_at(&self, v: usize) -> Option<Standing>
        requires { v < 256 }
        ensures { result ≡ child_at (T.PairTable.meaning self.now.table.now) self.now.barriers.at (members_of self.now.set) v }
    {
        let part = partners_below(self.table, &self.set, v);
        if self.enters_at(part.members(), v) {
            entered(self.table, &part, v)
        } else {
            None
        }
    }

    // The first child at `from` or above.
    pub(crate) fn first_child(&self, from: usize) -> Option<Standing>
        ensures { FirstChild (T.PairTable.meaning self.now.table.now) self.now.barriers.at (members_of self.now.set) from result }
    {
        (from..self.table.size()).find_map(|v| self.child_at(v))
    }
}

// Whether no partner of `v` below `v` is a partner of all of `part`: one that is, or a smaller one, would be added.
fn none_meets<T: PairTable>(table: &T, v: usize, part: &[u16]) -> bool
    ensures { result ≡ adds_none_below (T.PairTable.meaning table.now) v part.now }
{
    !(0..v).any(|w| table.partners(v, w) && partner_of_all(table, w, part))
}

// Whether `child`, the completion of `part` with `v`, adds nothing below `v`.
fn adds_none_below(child: &Standing, part: &[u16], v: u16) -> bool
    ensures { result ≡ same (below v (members_of child.now)) part.now }
{
    members_below(child, v).members() == part
}

// The completion of `part` with `v`, unless it adds something below `v`.
fn entered<T: PairTable>(table: &T, part: &Standing, v: usize) -> Option<Standing>
    requires { v < 256 }
    ensures { result ≡ entered (T.PairTable.meaning table.now) v (members_of part.now) }
{
    if !none_meets(table, v, part.members()) {
        return None;
    }
    let v = v as u16;
    let child = completed(table, part.with(v).members());
    adds_none_below(&child, part.members(), v).then_some(child)
}
