//! From a book's bytes to its summary.

ghost use Rattle.summary.specs.Summing.{Sums, counted_of, summary_answer, terms_of};
ghost use Rattle.std.specs.Prelude.{◌≡◌, ◌≤◌, length};
ghost use Rattle.closed.specs.Closes.{cards_in, plain};

use crate::counting::{count_pairs, count_unread, count_withdrawn};
use crate::facts::{Summary, Terms};
use book::IndexRecord;
use closed::{ClosedBook, read_closed};
use format::Card;
use refusal::Refusal;

fn terms_of(book: &ClosedBook) -> Terms
    ensures { result ≡ terms_of (plain book.now) }
{
    match book {
        ClosedBook::Pairs(table) => Terms::Pairs(count_pairs(table)),
        ClosedBook::Ruled(table) => Terms::Rule(table.rule()),
    }
}

// Counts what a closed book holds.
fn summarize(book: &ClosedBook) -> Summary
    requires { length (cards_in (plain book.now)) ≤ 256 }
    ensures { result ≡ counted_of (plain book.now) }
{
    let cards = book.cards();
    let rolls = cards.len();
    Summary {
        rolls,
        unread: count_unread(cards),
        terms: terms_of(book),
        withdrawn: count_withdrawn(book, rolls),
    }
}

/// Reads a book, closes it and tells what it holds, in memory of its own.
///
/// Refused are more than 65,536 bytes, then the first record that breaks a rule, at its offset.
pub fn check(bytes: &[u8]) -> Result<Summary, Refusal>
    ensures answer { result ≡ summary_answer bytes.now }
    ensures sums { Sums bytes.now result }
{
    let mut cards = [Card::NONE; 256];
    let mut marks = [0; 4080];
    let mut index = [IndexRecord::NONE; 256];
    let book = read_closed(bytes, &mut cards, &mut marks, &mut index)?;
    Ok(summarize(&book))
}
