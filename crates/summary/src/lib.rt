//! What a book holds, in numbers.
#![tactic(auto)]

mod counting;
mod facts;
mod printed;
mod verdict;

pub use facts::{Summary, Terms};
pub use verdict::check;
