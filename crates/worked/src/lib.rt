//! Worked racks: one list of cases with one fact over it, about the definitions and not about runs.
#![tactic(auto)]

mod theorems;

pub use theorems::{racks_hold, racks_lawful};
