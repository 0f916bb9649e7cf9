//! What cards tell: how many places there are, stamps, and which two agree under a rule.

ghost use Rattle.closed.specs.Tables.{agree, size_of, stamp_told};
ghost use Rattle.format.specs.Grammar.{on_card};
ghost use Rattle.std.specs.Prelude.{◌≡◌};

use format::{Card, Rule, stamp_in_range};

pub(crate) fn size_of(cards: &[Card]) -> usize
    ensures { result ≡ size_of cards.now }
{
    cards.len().min(256)
}

// Whether the stamp is on one of the cards.
pub(crate) fn has_stamp(cards: &[Card], stamp: u16) -> bool
    ensures { result ≡ on_card cards.now stamp }
{
    cards.iter().any(|card| card.stamp == stamp)
}

// The stamp that a place tells: of cards with one stamp only the first tells it. A table tells 0 where a place has none.
pub(crate) fn stamp_of(cards: &[Card], place: usize) -> u16
    ensures { result ≡ stamp_told cards.now place }
{
    match cards[..size_of(cards)].get(place) {
        Some(card) if stamp_in_range(card.stamp) && !has_stamp(&cards[..place], card.stamp) =>
            card.stamp,
        _ => 0,
    }
}

// Whether two cards make partners under the rule.
pub(crate) fn agreeing(rule: Rule, c: Card, d: Card) -> bool
    ensures { result ≡ agree rule c d }
{
    let both_read = c.diameter != 0 && d.diameter != 0;
    both_read
        && c.family == d.family
        && c.diameter.abs_diff(d.diameter) <= u32::from(rule.diameter)
        && c.crown.abs_diff(d.crown) <= rule.crown
}
