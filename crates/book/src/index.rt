//! The index of stamps.

ghost use Rattle.std.specs.Prelude.{◌≡◌, ◌<◌, ◌≤◌, [], length, take, drop, IfOk};
ghost use Rattle.sorted.specs.Held.{held, room};

use crate::fault::Fault;
use crate::sizes::CARDS;
use format::Card;
use refusal::Reason;
use sorted::{Keyed, SortedSlice};

/// Where the card with a stamp lies: the index keeps these by rising stamp.
#[derive(Clone, Copy, PartialEq, Eq, Debug)]
pub struct IndexRecord {
    pub stamp: u16,
    pub place: u8,
}

impl IndexRecord {
    /// No record: stamp and place are 0. A constant, as `Card::NONE` is.
    pub const NONE: IndexRecord = IndexRecord { stamp: 0, place: 0 };
}

impl Keyed for IndexRecord {
    type Key = u16;

    ghost keyed = { λ entry. entry.stamp };

    fn key(&self) -> u16 {
        self.stamp
    }
}

// The places of the cards taken in so far, by stamp, in a lent space.
#[derive(Drop)]
pub(crate) struct Index<'a> {
    records: SortedSlice<'a, IndexRecord>,
    ghost room: { room records ≡ 256 },
}

impl<'a> Index<'a> {
    ghost use Rattle.book.specs.Stands.{carded, located, told};

    // An index that holds nothing.
    pub(crate) fn new(space: &'a mut [IndexRecord; CARDS]) -> Index<'a>
        ensures held { held result.records ≡ [] }
        ensures count { result.records.count ≡ 0 }
    {
        Index {
            records: SortedSlice::new(space),
        }
    }

    // How many cards have been taken in.
    pub(crate) fn len(&self) -> usize
        ensures { result ≡ self.now.records.count }
    {
        self.records.len()
    }

    // The place of the card with the stamp.
    pub(crate) fn locate(&self, stamp: u16) -> Result<usize, Fault>
        ensures within { IfOk result (λ place. place < 256) }
        ensures answer { result ≡ located (held self.now.records) stamp }
    {
        let found = self.records.find(stamp).ok_or(Reason::UnknownStamp)?;
        Ok(usize::from(found.place))
    }

    // Writes a card behind those taken in so far, and files its stamp.
    pub(crate) fn file(&mut self, card: Card, cards: &mut [Card; CARDS]) -> Result<(), Fault>
        ensures answer { carded (take self.old.records.count cards.old) (held self.old.records) card ≡ told result (take self.new.records.count cards.new, held self.new.records) }
        ensures count { self.old.records.count ≤ self.new.records.count }
        ensures whole { length cards.new ≡ length cards.old }
        ensures behind { drop self.new.records.count cards.new ≡ drop self.new.records.count cards.old }
    {
        let place = self.len();
        if place == cards.len() {
            return Err(Reason::TooMany.into());
        }
        let record = IndexRecord {
            stamp: card.stamp,
            place: place as u8,
        };
        self.records.insert(record).map_err(|below| Fault {
            why: Reason::DuplicateStamp,
            below: Some(below.reason),
        })?;
        cards[place] = card;
        Ok(())
    }
}
