//! The barriers of the places at a set, of which the largest is the parent index of a maximal clique.

ghost use Rattle.std.specs.Prelude.{◌≡◌, ℕ, slice_index};
ghost use Rattle.cliques.specs.Shortcuts.{barrier, largest_barrier};
ghost use Rattle.completion.specs.Standings.{barrier_at};

use crate::sets::smallest;
use pairs::PairTable;

/// For each place its barrier at a set: the first member that is no partner of the place, where that lies above it, else 0.
/// The largest of them, or the smallest member where that is larger, is the parent index of a maximal clique.
#[derive(Clone, Copy, PartialEq, Eq, Debug)]
pub struct Barriers {
    // A fixed array, since the library has no heap.
    pub at: [u16; 256],
    pub largest: u16,
}

// The first member that is no partner of `x`, where it lies above `x`; else 0.
// No `Option`: a barrier lies above its place and so is never 0, and the largest is a plain maximum.
fn barrier<T: PairTable>(table: &T, x: usize, set: &[u16]) -> u16
    ensures { result ≡ barrier (T.PairTable.meaning table.now) set.now x }
{
    set.iter()
        .copied()
        .find(|&y| !table.partners(x, y as usize))
        .filter(|&u| x < u as usize)
        .unwrap_or(0)
}

impl Barriers {
    /// Works out the barriers of all places at a set.
    pub fn of<T: PairTable>(table: &T, set: &[u16]) -> Barriers
        ensures at { (x : ℕ) → slice_index result.at x ≡ barrier_at (T.PairTable.meaning table.now) set.now x }
        ensures largest { result.largest ≡ largest_barrier (T.PairTable.meaning table.now) (T.PairTable.meaning table.now).size set.now }
    {
        // In one pass: with the largest sought once all are made, a walk takes up to a tenth longer.
        let mut at = [0; 256];
        let mut largest = smallest(set);
        for (x, slot) in at[..table.size()].iter_mut().enumerate() {
            *slot = barrier(table, x, set);
            largest = largest.max(*slot);
        }
        Barriers { at, largest }
    }
}
