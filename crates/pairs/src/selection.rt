//! Selections: the places of a table below that a lent list names.

ghost use Rattle.std.specs.Prelude.{◌≡◌, ◌<◌, ◌≤◌, length, slice_index, take, IfOk, MatchResult};
ghost use Rattle.pairs.specs.Checks.{stands};
ghost use Rattle.pairs.specs.Selections.{Apart, selected, selected_lawful, selected_stamps, selected_distinct, entry_fault, selection_fault};
ghost use Rattle.std.specs.Option.{option_map};
ghost use Rattle.std.specs.Result.{result_err};

use super::table::{PairTable, Stamped};
use refusal::{Layer, Reason, Refusal};

/// The places of a table below that a list names, in the list's order: at most 256, no place twice, possibly none.
#[derive(Drop)]
pub struct Selection<'a, T> {
    below: T,
    chosen: &'a [u16],
    ghost few: { length chosen.now ≤ 256 },
    ghost apart: { Apart chosen.now },
}

// Whether the entry at `i` is an earlier entry again. By `contains`, which takes some entries at a time: a test of each by `any`
// makes a selection of all places six times as slow.
fn is_repeated(chosen: &[u16], i: usize) -> bool
    requires { i < length chosen.now }
    ensures { result ≡ stands (take i chosen.now) (slice_index chosen.now i) }
{
    chosen[..i].contains(&chosen[i])
}

// What is wrong with the entry at `i`: a place beyond the table below, or an earlier entry again.
fn entry_fault(size: usize, chosen: &[u16], i: usize) -> Option<Refusal>
    requires { i < length chosen.now }
    ensures { result ≡ entry_fault size chosen.now i }
{
    let entry = chosen[i] as usize;
    if entry >= size {
        Some(Refusal::new(Reason::BadList, Layer::Table, i))
    } else if is_repeated(chosen, i) {
        Some(Refusal::new(Reason::Repeated, Layer::Table, i))
    } else {
        None
    }
}

// The first entry's fault, or none. The search goes by place, since each test reads the entries before it.
fn selection_fault(size: usize, chosen: &[u16]) -> Option<Refusal>
    ensures { result ≡ selection_fault size chosen.now }
{
    (0..chosen.len()).find_map(|i| entry_fault(size, chosen, i))
}

impl<'a, T: PairTable> Selection<'a, T> {
    /// Selects places of the table below. Refuses the first entry that is a place at or beyond its size
    /// (`Reason::BadList`) or an earlier entry again (`Reason::Repeated`), at the entry's index, and gives the table back.
    pub fn new(below: T, chosen: &'a [u16]) -> Result<Selection<'a, T>, (Refusal, T)>
        ensures refusal { option_map (λ e. e.0) (result_err result) ≡ selection_fault (T.PairTable.meaning below).size chosen.now }
        ensures below { MatchResult result (λ s. s.below ≡ below) (λ e. e.1 ≡ below) }
        ensures chosen { IfOk result (λ s. s.chosen.now ≡ chosen.now) }
        ensures meaning { IfOk result (λ s. selected (T.PairTable.meaning s.below) s.chosen.now ≡ selected (T.PairTable.meaning below) chosen.now) }
    {
        if let Some(refusal) = selection_fault(below.size(), chosen) {
            return Err((refusal, below));
        }
        Ok(Selection { below, chosen })
    }

    /// Gives the table below back.
    pub fn release(self) -> T
        ensures { result ≡ self.entry.below }
    {
        let Selection { below, chosen: _ } = self;
        below
    }
}

/// Two places are partners exactly when their entries are partners below.
impl<T: PairTable> PairTable for Selection<'_, T> {
    ghost meaning = { λ s. selected (T.PairTable.meaning s.below) s.chosen.now };

    ghost lawful = { λ s. selected_lawful (T.PairTable.meaning s.below) s.chosen.now s.few (T.PairTable.lawful s.below) };

    fn size(&self) -> usize {
        self.chosen.len()
    }

    fn partners(&self, u: usize, v: usize) -> bool {
        u < self.size()
            && v < self.size()
            && self
                .below
                .partners(self.chosen[u] as usize, self.chosen[v] as usize)
    }
}

/// The stamp at a place is that of its entry below.
impl<T: Stamped> Stamped for Selection<'_, T> {
    ghost stamps = { λ s. selected_stamps (T.Stamped.stamps s.below) s.chosen.now };

    ghost distinct = { λ s. selected_distinct (T.Stamped.stamps s.below) s.chosen.now s.apart (T.Stamped.distinct s.below) };

    // A table tells 0 where a place has no stamp.
    fn stamp(&self, u: usize) -> u16 {
        let below = &self.below;
        self.chosen
            .get(u)
            .map_or(0, |&entry| below.stamp(entry as usize))
    }
}
