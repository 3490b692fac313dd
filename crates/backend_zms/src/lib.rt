//! Settings in a ZMS area: a hash of the name gives the id of the name's item, and the value's item
//! stands at a fixed distance above it.
#![tactic(auto)]

mod backend;
mod hash;
mod numbering;

pub use backend::ZmsBackend;
pub use hash::{FIRST, GROUP_SIZE, first_of};
pub use numbering::ZmsIdLayout;
