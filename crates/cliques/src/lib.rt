//! Maximal cliques of a pair table, by path: definitions and theorems, with no program in sight.
#![tactic(auto)]

mod theorems;

pub use theorems::{
    children_hold, climbs_hold, completions_hold, indices_hold, lists_hold, next_is_one,
    paths_hold, shortcuts_hold, tests_hold,
};
