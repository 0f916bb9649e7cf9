//! Records in rising order of a key, at the front of a slice that the caller lends.
#![tactic(auto)]

mod keys;
mod lists;
mod slice;
mod uses;

pub use keys::{Keyed, Order, TotalOrder};
pub use slice::SortedSlice;
