//! The trait of every settings store (`Backend`): an area of flash holds a map of names to values,
//! and each call says what it leaves there, power losses included. The crates above are proved
//! once, against this trait.
#![tactic(auto)]

mod backend;
mod laws;
mod names;

pub use backend::{Backend, SetFault};
pub use laws::{follow_commands, rebuild_settings, walk_names};
pub use names::is_behind;
