//! The roll book's format: records and their bytes, and which lists of records are a book.
#![tactic(auto)]

mod card;
mod records;
mod theorems;

pub use card::{Card, Rule};
pub use records::{Record, Section, decode, stamp_in_range};
pub use theorems::reads_exactly;
