//! Closing a book and opening it again.

ghost use Rattle.closed.specs.Closes.{StampsTold, book_in, card_fault, cards_in, close_fault, closing, plain, plain_of};
ghost use Rattle.std.specs.Prelude.{◌≡◌, ◌<◌, false, length, IfOk, if◌then◌else◌, nat_lt, slice_index_or};

use crate::books::{Closed, ClosedBook, Marks, RuleBook};
use crate::cards::has_stamp;
use book::{OpenBook, short_spaces};
use format::{Card, Rule};
use refusal::{Layer, Reason, Refusal};

// What is wrong with the card at a place: it is out of range, or has the stamp of an earlier one.
fn card_fault(cards: &[Card], place: usize) -> Option<Refusal>
    requires { place < length cards.now }
    ensures { result ≡ card_fault cards.now place }
{
    let card = cards[place];
    if !card.in_range() {
        Some(Refusal::new(Reason::OutOfRange, Layer::Book, place))
    } else if has_stamp(&cards[..place], card.stamp) {
        Some(Refusal::new(Reason::DuplicateStamp, Layer::Book, place))
    } else {
        None
    }
}

// The fault of the first card that has one. The search goes by place, since each test reads the cards before it.
fn first_fault(cards: &[Card]) -> Option<Refusal>
    ensures { result ≡ close_fault cards.now }
{
    (0..cards.len()).find_map(|place| card_fault(cards, place))
}

/// Closes a book over the spaces that hold its cards and marks, which are taken as found.
///
/// Refused are spaces of fewer than 256 cards or 4,080 mark bytes, then card by card a field out of range and the stamp of
/// an earlier card; a refusal gives the open book back.
pub fn close<'a>(
    book: OpenBook,
    cards: &'a [Card],
    marks: &'a [u8],
) -> Result<ClosedBook<'a>, (Refusal, OpenBook)>
    ensures closed { plain_of result ≡ closing book cards.now marks.now }
    ensures stamps { IfOk result (λ t. StampsTold (plain t)) }
{
    if short_spaces(cards, marks) {
        return Err((Refusal::new(Reason::ShortSpace, Layer::Book, 0), book));
    }
    let cards = &cards[..book.count().min(cards.len())];
    if let Some(refusal) = first_fault(cards) {
        return Err((refusal, book));
    }
    Ok(match book.rule() {
        Some(terms) => ClosedBook::Ruled(Closed { book, cards, terms }),
        None => ClosedBook::Pairs(Closed {
            book,
            cards,
            terms: Marks { bytes: marks },
        }),
    })
}

impl<'a> ClosedBook<'a> {
    /// Opens the book again; this refuses nothing.
    pub fn open(self) -> OpenBook
        ensures { result ≡ book_in (plain self.entry) }
    {
        match self {
            ClosedBook::Pairs(Closed { book, .. }) | ClosedBook::Ruled(Closed { book, .. }) => book,
        }
    }

    /// The cards of the book, in the memory that holds them.
    pub fn cards(&self) -> &'a [Card]
        ensures { result.now ≡ cards_in (plain self.now) }
    {
        match self {
            ClosedBook::Pairs(Closed { cards, .. }) | ClosedBook::Ruled(Closed { cards, .. }) =>
                cards,
        }
    }

    /// Whether the roll at the place is withdrawn; none is from place 256 on.
    pub fn is_withdrawn(&self, place: usize) -> bool
        ensures { result ≡ (if nat_lt place 256 then slice_index_or (book_in (plain self.now)).notes.withdrawn place false else false) }
    {
        match self {
            ClosedBook::Pairs(Closed { book, .. }) | ClosedBook::Ruled(Closed { book, .. }) =>
                book.is_withdrawn(place),
        }
    }
}

impl RuleBook<'_> {
    /// The rule by which rolls are partners.
    pub fn rule(&self) -> Rule
        ensures { result ≡ self.now.terms }
    {
        self.terms
    }
}
