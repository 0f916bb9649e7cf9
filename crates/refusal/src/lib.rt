//! Why a call was refused: the reason, the layer that refused, the place, and the reason from the layer below.
#![tactic(auto)]

ghost use Rattle.refusal.specs.Refusals.{below_number, fixed, layer_name, line, number_of, refused, refused_over};
ghost use Rattle.std.specs.Prelude.{◌≡◌, Some};

use std::fmt;

/// Why a call is refused. `docs/REFUSALS.md` says who tells which reason, and when.
#[derive(Clone, Copy, PartialEq, Eq, Debug)]
pub enum Reason {
    /// The bytes end in or before a record.
    Truncated = 1,
    /// A record's kind byte is none of the format's.
    UnknownKind = 2,
    /// A record that may not stand in this section, a byte after the end, or a pair change under a rule.
    OutOfSection = 3,
    /// A field outside its range.
    OutOfRange = 4,
    /// The stamp of an earlier card.
    DuplicateStamp = 5,
    /// A stamp that is on no card.
    UnknownStamp = 6,
    /// A roll paired with itself.
    SelfPair = 7,
    /// Said already.
    Repeated = 8,
    /// More cards or lists than a table has places.
    TooMany = 9,
    /// A list that is empty, not rising, or names a place beyond the table.
    BadList = 10,
    /// Two members that are no partners.
    NotPartners = 11,
    /// A set that can be enlarged.
    NotMaximal = 12,
    /// No further set.
    Exhausted = 13,
    /// No set stands to be read.
    NothingStanding = 14,
    /// The caller's space is too short.
    ShortSpace = 15,
    /// A sorted slice without room.
    Full = 16,
    /// More bytes than a book may have.
    TooLong = 17,
    /// Nothing there to take, strike or return.
    Missing = 18,
    /// A partner list that names a roll which does not name it back.
    OneSided = 19,
}

/// The part of the library that refuses.
#[derive(Clone, Copy, PartialEq, Eq, Debug)]
pub enum Layer {
    Book,
    Table,
    Shelf,
    Walk,
}

/// A refusal: the reason, who refuses, the place that it points at (0 where it points at none),
/// and the reason that the layer below gave, if that is what it rests on.
#[derive(Clone, Copy, PartialEq, Eq, Debug)]
pub struct Refusal {
    pub reason: Reason,
    pub layer: Layer,
    pub place: usize,
    pub below: Option<Reason>,
}

impl Reason {
    /// The number by which the shop knows the reason, 1 to 19.
    pub fn number(self) -> u8
        ensures { result ≡ number_of self }
    {
        self as u8
    }

    /// Whether a refusal for this reason can point at a place; the others tell 0.
    pub fn points(self) -> bool
        ensures { result ≡ (fixed self).points }
    {
        !matches!(
            self,
            Reason::NotMaximal
                | Reason::Exhausted
                | Reason::NothingStanding
                | Reason::Full
                | Reason::TooLong
                | Reason::Missing
        )
    }
}

impl Refusal {
    /// A refusal that rests on nothing from below.
    pub fn new(reason: Reason, layer: Layer, place: usize) -> Refusal
        ensures { result ≡ refused reason layer place }
    {
        Refusal {
            reason,
            layer,
            place: if reason.points() { place } else { 0 },
            below: None,
        }
    }

    /// A refusal that rests on what the layer below refused.
    pub fn over(reason: Reason, layer: Layer, place: usize, below: Reason) -> Refusal
        ensures { result ≡ refused_over reason layer place (Some below) }
    {
        Refusal {
            below: Some(below),
            ..Refusal::new(reason, layer, place)
        }
    }

    /// The number from the layer below, or 0, as the shop writes where there is none.
    pub fn below_number(&self) -> u8
        ensures { result ≡ below_number self.now }
    {
        self.below.map_or(0, Reason::number)
    }
}

/// The layer's name, as a refusal is printed.
impl fmt::Display for Layer {
    ghost output = { λ layer. Some (layer_name layer) };

    fn fmt<W: fmt::Write>(&self, f: &mut fmt::Formatter<W>) -> fmt::Result {
        f.write_str(match self {
            Layer::Book => "book",
            Layer::Table => "table",
            Layer::Shelf => "shelf",
            Layer::Walk => "walk",
        })
    }
}

/// `refused 5 in book at 10`: number, layer and place.
impl fmt::Display for Refusal {
    ghost output = { λ refusal. Some (line refusal) };

    fn fmt<W: fmt::Write>(&self, f: &mut fmt::Formatter<W>) -> fmt::Result {
        let Refusal {
            reason,
            layer,
            place,
            below: _,
        } = *self;
        let number = reason.number();
        write!(f, "refused {number} in {layer} at {place}")
    }
}
