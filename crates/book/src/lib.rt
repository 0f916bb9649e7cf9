//! Roll books in the caller's memory: reading one, and what it then holds.
#![tactic(auto)]

mod changes;
mod fault;
mod index;
mod marks;
mod open;
mod reader;
mod reading;
mod sizes;

pub use changes::short_spaces;
pub use index::IndexRecord;
pub use marks::is_marked;
pub use open::{Notes, OpenBook};
pub use reading::read;
