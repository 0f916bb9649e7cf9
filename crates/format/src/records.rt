//! Records, read from bytes.

ghost use Rattle.std.specs.Prelude.{◌≡◌, ◌+◌, ◌*◌, ◌≤◌};
ghost use Rattle.format.specs.Records.{card_ok, fields_ok, record_in, stamp_ok};

use crate::card::{Card, Rule};
use refusal::Reason;

/// What one record of a book says.
#[derive(Clone, Copy, PartialEq, Eq, Debug)]
pub enum Record {
    /// A roll's card.
    Card(Card),
    /// The rule by which rolls are partners.
    Rule(Rule),
    /// Two rolls, by their stamps, are partners.
    Pair(u16, u16),
    /// The roll of that stamp is withdrawn.
    Withdrawn(u16),
    /// The book ends here.
    End,
}

/// How far a book has been read: the section that the last record stands in.
#[derive(Clone, Copy, PartialEq, Eq, Debug)]
pub enum Section {
    Cards,
    Ruled,
    Paired,
    Withdrawing,
    Done,
}

/// The record that begins `part`, and how many bytes follow it.
///
/// Refused are a first byte that is no kind, and bytes that end in or before the record.
pub fn decode(part: &[u8]) -> Result<(Record, usize), Reason>
    ensures { result ≡ record_in part.now }
{
    match *part {
        [0x01, s1, s0, family, d3, d2, d1, d0, c1, c0, ref rest @ ..] => {
            let card = Card {
                stamp: u16::from_be_bytes([s1, s0]),
                family,
                diameter: u32::from_be_bytes([d3, d2, d1, d0]),
                crown: i16::from_be_bytes([c1, c0]),
            };
            Ok((Record::Card(card), rest.len()))
        }
        [0x02, d1, d0, c1, c0, ref rest @ ..] => {
            let rule = Rule {
                diameter: u16::from_be_bytes([d1, d0]),
                crown: u16::from_be_bytes([c1, c0]),
            };
            Ok((Record::Rule(rule), rest.len()))
        }
        [0x03, a1, a0, b1, b0, ref rest @ ..] => Ok((
            Record::Pair(u16::from_be_bytes([a1, a0]), u16::from_be_bytes([b1, b0])),
            rest.len(),
        )),
        [0x04, s1, s0, ref rest @ ..] => Ok((
            Record::Withdrawn(u16::from_be_bytes([s1, s0])),
            rest.len(),
        )),
        [0x05, ref rest @ ..] => Ok((Record::End, rest.len())),
        [] | [0x01 | 0x02 | 0x03 | 0x04, ..] => Err(Reason::Truncated),
        _ => Err(Reason::UnknownKind),
    }
}

/// Whether the number may be a stamp, 1 to 9,999.
pub fn stamp_in_range(stamp: u16) -> bool
    ensures { result ≡ stamp_ok stamp }
{
    (1..=9999).contains(&stamp)
}

impl Card {
    /// Whether every field is in its range: a card without a reading has no crown either.
    pub fn in_range(self) -> bool
        ensures { result ≡ card_ok self }
    {
        stamp_in_range(self.stamp)
            && 1 <= self.family
            && self.diameter <= 200000
            && (-500..=500).contains(&self.crown)
            && (self.diameter != 0 || self.crown == 0)
    }
}

impl Record {
    /// Whether every field is in its range.
    pub fn in_range(self) -> bool
        ensures { result ≡ fields_ok self }
    {
        match self {
            Record::Card(card) => card.in_range(),
            Record::Pair(a, b) => stamp_in_range(a) && stamp_in_range(b),
            Record::Withdrawn(stamp) => stamp_in_range(stamp),
            Record::Rule(_) | Record::End => true,
        }
    }
}
