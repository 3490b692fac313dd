//! Handlers of settings, and the registry that maps a subtree of names to its handler.
#![tactic(auto)]

mod best;
mod handler;
mod kinds;
mod laws;
mod pairs;
mod registry;

pub use handler::{Handler, HandlerKind, SetRefusal, ValueView};
pub use kinds::{CounterHandler, LevelHandler, TableHandler};
pub use laws::{longest_is_best, subtrees_stay};
pub use registry::{RegisterFault, Registry, RegistryOf};
