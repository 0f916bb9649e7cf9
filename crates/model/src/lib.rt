//! The reference model of a walk: the list of all maximal cliques by rising path, and a pin. What a walk answers to any
//! list of calls is stated by it.
#![tactic(auto)]

mod answer;
mod call;
mod exchange;
mod theorems;

pub use answer::Answer;
pub use call::Call;
pub use exchange::Exchange;
pub use theorems::{model_obeys, remainder_holds};
