//! The summary of a book.

use format::Rule;

/// By what rolls are partners: how many pairs there are, or the rule.
#[derive(Clone, Copy, PartialEq, Eq, Debug)]
pub enum Terms {
    Pairs(usize),
    Rule(Rule),
}

/// What a book holds.
#[derive(Clone, Copy, PartialEq, Eq, Debug)]
pub struct Summary {
    /// How many cards.
    pub rolls: usize,
    /// How many of them without a fresh reading.
    pub unread: usize,
    pub terms: Terms,
    /// How many rolls are withdrawn.
    pub withdrawn: usize,
}
