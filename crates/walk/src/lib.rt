//! A walk over the maximal cliques of a pair table, in the order of their paths. It keeps the set that it stands at and
//! nothing else.
#![tactic(auto)]

mod climb;
mod heads;
mod reached;
mod walk;

pub use walk::Walk;
