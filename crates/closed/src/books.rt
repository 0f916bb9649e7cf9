//! Closed books.

use book::OpenBook;
use format::{Card, Rule};

/// A book that is closed over its cards, with the terms by which two rolls are partners.
#[derive(Drop)]
pub struct Closed<'a, T> {
    pub(crate) book: OpenBook,
    pub(crate) cards: &'a [Card],
    pub(crate) terms: T,
}

/// Pair marks, in the memory that holds them.
#[derive(Drop)]
pub struct Marks<'a> {
    pub(crate) bytes: &'a [u8],
}

/// A closed book whose partners are marked.
pub type PairBook<'a> = Closed<'a, Marks<'a>>;

/// A closed book whose partners follow from a rule.
pub type RuleBook<'a> = Closed<'a, Rule>;

/// A closed book of either kind. It may be listed and not changed; `open` gives the open book back.
#[derive(Drop)]
pub enum ClosedBook<'a> {
    Pairs(PairBook<'a>),
    Ruled(RuleBook<'a>),
}
