//! The completion of a clique, and the parent index and the parent of a maximal clique, over every pair table. Table and set
//! are the caller's and come with each call: nothing is kept from one to the next.
#![tactic(auto)]

mod barriers;
mod calls;
mod checks;
mod gather;
mod sets;
mod standing;

pub use barriers::Barriers;
pub use calls::{complete, parent, parent_index};
pub use checks::maximal_fault;
pub use gather::{completed, completed_below};
pub use sets::{is_member, members_below, partner_of_all, partners_below, smallest};
pub use standing::Standing;
