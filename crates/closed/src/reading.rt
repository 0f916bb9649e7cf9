//! Reading a book and closing it at once.

ghost use Rattle.book.specs.Reading.{IndexAfter, answer_of, outcome};
ghost use Rattle.book.specs.Spaces.{too_short};
ghost use Rattle.closed.specs.Closes.{book_in, plain};
ghost use Rattle.closed.specs.Tells.{ReadsClosed};
ghost use Rattle.std.specs.Prelude.{◌≡◌, length, IfOk};

use crate::books::ClosedBook;
use crate::closing::close;
use book::{IndexRecord, read};
use format::Card;
use refusal::Refusal;

/// Reads a roll book into the caller's spaces and closes it over them. Closing what was just read refuses nothing, so the
/// refusals are those of reading.
pub fn read_closed<'a>(
    bytes: &[u8],
    cards: &'a mut [Card],
    marks: &'a mut [u8],
    index: &mut [IndexRecord],
) -> Result<ClosedBook<'a>, Refusal>
    ensures table { ReadsClosed bytes.now (too_short (length cards.old) (length marks.old) (length index.old)) result }
    ensures book { IfOk result (λ t. Ok (book_in (plain t)) ≡ answer_of (outcome bytes.now (too_short (length cards.old) (length marks.old) (length index.old)))) }
    ensures index { IndexAfter (outcome bytes.now (too_short (length cards.old) (length marks.old) (length index.old))) index.old index.new }
{
    let book = read(bytes, cards, marks, index)?;
    close(book, cards, marks).map_err(|(refusal, _)| refusal)
}
