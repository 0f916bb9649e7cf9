//! Pair tables: which places are partners, by lists of partners and by selections of a table below.
#![tactic(auto)]

mod checks;
mod lists;
mod selection;
mod table;
mod uses;

pub use lists::PartnerLists;
pub use selection::Selection;
pub use table::{PairTable, Stamped};
