//! Closed books: the pair tables of a roll book, by its pair marks or under its rule.
#![tactic(auto)]

mod books;
mod cards;
mod closing;
mod reading;
mod tables;

pub use books::{ClosedBook, PairBook, RuleBook};
pub use closing::close;
pub use reading::read_closed;
