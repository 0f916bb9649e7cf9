//! Counting cards, withdrawn rolls and partners.

ghost use Rattle.std.specs.Prelude.{◌≡◌, ◌≤◌, false, slice_index_or};
ghost use Rattle.closed.specs.Closes.{book_in, plain};
ghost use Rattle.summary.specs.Summing.{count_to, pairs_to, unread_in};

use closed::ClosedBook;
use format::Card;
use pairs::PairTable;

pub(crate) fn count_unread(cards: &[Card]) -> usize
    ensures { result ≡ unread_in cards.now }
{
    cards.iter().filter(|card| card.diameter == 0).count()
}

// How many of the first `size` places are withdrawn.
pub(crate) fn count_withdrawn(book: &ClosedBook, size: usize) -> usize
    requires { size ≤ 256 }
    ensures { result ≡ count_to (λ u. slice_index_or (book_in (plain book.now)).notes.withdrawn u false) size }
{
    (0..size).filter(|place| book.is_withdrawn(*place)).count()
}

// How many places below v are its partners.
fn count_below<T: PairTable>(table: &T, v: usize) -> usize
    ensures count { result ≡ count_to (λ u. (T.PairTable.meaning table.now).partners u v) v }
    ensures few { result ≤ 256 }
{
    (0..v).filter(|u| table.partners(*u, v)).count()
}

// How many pairs of partners a table has.
pub(crate) fn count_pairs<T: PairTable>(table: &T) -> usize
    ensures { result ≡ pairs_to (T.PairTable.meaning table.now).partners (T.PairTable.meaning table.now).size }
{
    (0..table.size()).map(|v| count_below(table, v)).sum()
}
