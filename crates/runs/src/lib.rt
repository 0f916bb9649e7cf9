//! Whole runs of a walk: any list of calls on a new walk, answered in place, then steps alone; and the same on a table that
//! is put in degeneracy order first. The caller lends all memory.
#![tactic(auto)]

mod calls;
mod driver;
mod ordered;
mod rest;

pub use driver::run;
pub use ordered::{InOrder, run_in_order};
pub use rest::Rest;
