//! Closed books as pair tables with stamps.

ghost use Rattle.cliques.specs.Graph.{Lawful};
ghost use Rattle.closed.specs.Tables.{apart_agreeing, pairs_lawful, rule_lawful, stamp_told, stamps_distinct, table_of};
ghost use Rattle.book.specs.Marks.{tells};
ghost use Rattle.format.specs.declared.card.Card.{Card};
ghost use Rattle.std.specs.Prelude.{◌≡◌, ℕ, ◌<◌, Bool, List, length};

use crate::books::{Closed, Marks};
use crate::cards::{agreeing, size_of, stamp_of};
use book::is_marked;
use format::{Card, Rule};
use pairs::{PairTable, Stamped};

// By what two rolls of a book are partners.
pub(crate) trait Partnership {
    // Whether two places are told to be partners, by the cards of the book.
    ghost told: { Self → List Card → ℕ → ℕ → Bool };

    // Asked of the places that have cards, this makes a lawful table.
    ghost lawful: { (terms : Self) (cards : List Card) → Lawful (table_of cards (told terms cards)) };

    fn tell(&self, cards: &[Card], u: usize, v: usize) -> bool
        requires first { u < length cards.now }
        requires second { v < length cards.now }
        ensures { result ≡ told self.now cards.now u v };
}

impl Partnership for Marks<'_> {
    ghost told = { λ marks cards. tells marks.bytes.now };

    ghost lawful = { λ marks cards. pairs_lawful cards marks.bytes.now };

    fn tell(&self, _cards: &[Card], u: usize, v: usize) -> bool {
        is_marked(self.bytes, u, v)
    }
}

impl Partnership for Rule {
    ghost told = { λ rule cards. apart_agreeing rule cards };

    ghost lawful = { λ rule cards. rule_lawful cards rule };

    fn tell(&self, cards: &[Card], u: usize, v: usize) -> bool {
        u != v && agreeing(*self, cards[u], cards[v])
    }
}

impl<T: Partnership> PairTable for Closed<'_, T> {
    ghost meaning = { λ t. table_of t.cards.now (T.Partnership.told t.terms t.cards.now) };

    ghost lawful = { λ t. T.Partnership.lawful t.terms t.cards.now };

    fn size(&self) -> usize {
        size_of(self.cards)
    }

    fn partners(&self, u: usize, v: usize) -> bool {
        let size = self.size();
        u < size && v < size && self.terms.tell(self.cards, u, v)
    }
}

impl<T: Partnership> Stamped for Closed<'_, T> {
    ghost stamps = { λ t. stamp_told t.cards.now };

    ghost distinct = { λ t. stamps_distinct t.cards.now };

    fn stamp(&self, u: usize) -> u16 {
        stamp_of(self.cards, u)
    }
}
