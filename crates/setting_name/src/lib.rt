//! Names of settings, such as `bt/mesh/iv`, and how a name matches a subtree.
#![tactic(auto)]

pub mod laws;
mod name;

pub use name::{NAME_LIMIT, Name, NameFault, count_of_parts};
