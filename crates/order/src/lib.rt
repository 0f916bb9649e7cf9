//! The degeneracy order: an order of a table's places in which no place has more later partners than it must.
#![tactic(auto)]

mod degeneracy;
mod fronts;
mod takes;
mod tallies;
mod waiting;

pub use degeneracy::degeneracy_order;
pub use waiting::Waiting;
