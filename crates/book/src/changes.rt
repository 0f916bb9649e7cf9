//! Changes of an open book, by places: one pair or one withdrawn roll, and everything else as it was. The book has numbers
//! only, so its spaces come with each call.

ghost use Rattle.book.specs.Changes.{PairChanged, answering, beyond, pair_fault, roll_fault, short_spaces, with_roll};
ghost use Rattle.std.specs.Prelude.{◌≡◌, ◌<◌, ◌≤◌, true, false, length, is_ok, if◌then◌else◌, Some};

use crate::marks::{is_marked, toggle};
use crate::open::OpenBook;
use crate::sizes::{CARDS, MARK_BYTES};
use format::Card;
use refusal::{Layer, Reason, Refusal};

/// Whether the spaces are shorter than a book asks for: 256 cards and 4,080 mark bytes.
pub fn short_spaces(cards: &[Card], marks: &[u8]) -> bool
    ensures test { result ≡ short_spaces (length cards.now) (length marks.now) }
    ensures enough { result ≡ false → (256 ≤ length cards.now) × (4080 ≤ length marks.now) }
{
    cards.len() < CARDS || marks.len() < MARK_BYTES
}

fn refused(reason: Reason) -> Result<(), Refusal>
    ensures { result ≡ answering (Some reason) }
{
    Err(Refusal::new(reason, Layer::Book, 0))
}

// Why a change that is made already is refused: the pair or the withdrawal is there, or it is not.
fn made_already(there: bool) -> Reason
    ensures { result ≡ (if there then Reason.Repeated else Reason.Missing) }
{
    if there {
        Reason::Repeated
    } else {
        Reason::Missing
    }
}

impl OpenBook {
    // Whether there is no card at the place.
    fn beyond(&self, place: usize) -> bool
        ensures test { result ≡ beyond self.now place }
        ensures small { result ≡ false → place < 256 }
    {
        place >= self.count || place >= CARDS
    }

    // Sets the mark of a pair, or strikes it. What the mark is to be is a bool, as the mark is: the two are compared.
    fn change_pair(
        &self,
        cards: &[Card],
        marks: &mut [u8],
        u: usize,
        v: usize,
        add: bool,
    ) -> Result<(), Refusal>
        ensures answer { result ≡ answering (pair_fault self.now (length cards.now) marks.old u v add) }
        ensures marks { PairChanged (is_ok result) u v add marks.old marks.new }
    {
        if short_spaces(cards, marks) {
            return refused(Reason::ShortSpace);
        }
        if self.notes.rule.is_some() {
            return refused(Reason::OutOfSection);
        }
        if self.beyond(u) || self.beyond(v) {
            return refused(Reason::BadList);
        }
        if u == v {
            return refused(Reason::SelfPair);
        }
        if is_marked(marks, u, v) == add {
            return refused(made_already(add));
        }
        toggle(marks, u, v);
        Ok(())
    }

    /// Makes the rolls at two places partners. The spaces are those that the book was read into.
    ///
    /// Refused are spaces that are too short, a book with a rule, a place without a card, a place with itself, and
    /// partners; a refusal changes nothing.
    pub fn add_pair(
        &self,
        cards: &[Card],
        marks: &mut [u8],
        u: usize,
        v: usize,
    ) -> Result<(), Refusal>
        ensures answer { result ≡ answering (pair_fault self.now (length cards.now) marks.old u v true) }
        ensures marks { PairChanged (is_ok result) u v true marks.old marks.new }
    {
        self.change_pair(cards, marks, u, v, true)
    }

    /// Makes the rolls at two places no partners. The spaces are those that the book was read into.
    ///
    /// Refused are spaces that are too short, a book with a rule, a place without a card, a place with itself, and two
    /// that are no partners; a refusal changes nothing.
    pub fn strike_pair(
        &self,
        cards: &[Card],
        marks: &mut [u8],
        u: usize,
        v: usize,
    ) -> Result<(), Refusal>
        ensures answer { result ≡ answering (pair_fault self.now (length cards.now) marks.old u v false) }
        ensures marks { PairChanged (is_ok result) u v false marks.old marks.new }
    {
        self.change_pair(cards, marks, u, v, false)
    }

    // Withdraws a roll, or takes it back. What the mark is to be is a bool, as the mark is: the two are compared.
    fn change_roll(
        &mut self,
        cards: &[Card],
        marks: &[u8],
        place: usize,
        gone: bool,
    ) -> Result<(), Refusal>
        ensures answer { result ≡ answering (roll_fault self.old (length cards.now) (length marks.now) place gone) }
        ensures book { self.new ≡ (if is_ok result then with_roll self.old place gone else self.old) }
    {
        if short_spaces(cards, marks) {
            return refused(Reason::ShortSpace);
        }
        if self.beyond(place) {
            return refused(Reason::BadList);
        }
        if self.notes.withdrawn[place] == gone {
            return refused(made_already(gone));
        }
        self.notes.withdrawn[place] = gone;
        Ok(())
    }

    /// Withdraws the roll at a place.
    ///
    /// Refused are spaces that are too short, a place without a card, and a roll that is withdrawn; a refusal changes
    /// nothing.
    pub fn withdraw(&mut self, cards: &[Card], marks: &[u8], place: usize) -> Result<(), Refusal>
        ensures answer { result ≡ answering (roll_fault self.old (length cards.now) (length marks.now) place true) }
        ensures book { self.new ≡ (if is_ok result then with_roll self.old place true else self.old) }
    {
        self.change_roll(cards, marks, place, true)
    }

    /// Takes the withdrawn roll at a place back.
    ///
    /// Refused are spaces that are too short, a place without a card, and a roll that is not withdrawn; a refusal
    /// changes nothing.
    pub fn reinstate(&mut self, cards: &[Card], marks: &[u8], place: usize) -> Result<(), Refusal>
        ensures answer { result ≡ answering (roll_fault self.old (length cards.now) (length marks.now) place false) }
        ensures book { self.new ≡ (if is_ok result then with_roll self.old place false else self.old) }
    {
        self.change_roll(cards, marks, place, false)
    }
}
