//! The heads of a table, the places without a smaller partner, and the roots that they complete to.

ghost use Rattle.std.specs.Prelude.{◌≡◌, ◌<◌, [], ◌∷◌};
ghost use Rattle.cliques.specs.Completion.{is_head};
ghost use Rattle.cliques.specs.Paths.{LeastFrom};
ghost use Rattle.cliques.specs.Sets.{FirstFrom};
ghost use Rattle.walk.specs.Search.{Kept, found_set};

use completion::{Standing, completed};
use pairs::PairTable;

// Whether a place has no smaller partner.
fn is_head<T: PairTable>(table: &T, h: usize) -> bool
    ensures { h < (T.PairTable.meaning table.now).size → result ≡ is_head (T.PairTable.meaning table.now) h }
{
    table.first_partner(h, 0).is_none_or(|w| h < w)
}

// The first head at `from` or above.
fn first_head<T: PairTable>(table: &T, from: usize) -> Option<usize>
    ensures { FirstFrom (is_head (T.PairTable.meaning table.now)) (T.PairTable.meaning table.now).size from result }
{
    (from..table.size()).find(|&h| is_head(table, h))
}

// The completion of the first head at `from` or above.
pub(crate) fn first_root<T: PairTable>(table: &T, from: usize) -> Option<Standing>
    ensures kept { Kept result }
    ensures least { LeastFrom (T.PairTable.meaning table.now) (from ∷ []) (found_set result) }
{
    first_head(table, from).map(|h| completed(table, &[h as u16]))
}
