//! The settings runtime: it loads, saves, deletes and commits the settings of one store, with the
//! handlers of the application.
#![tactic(auto)]

mod committing;
mod direct;
mod laws;
mod loading;
mod offering;
mod placed;
mod report;
mod runtime;
mod saving;
mod settings;
mod writing;

pub use committing::commit;
pub use direct::Each;
pub use laws::{cut_commands, due_commands, each_delivery, lawful_registry, stored_values};
pub use loading::{LoadFault, Loaded};
pub use placed::PlacedHandlers;
pub use report::Report;
pub use runtime::{NoHandler, RuntimeFault, runtime_get, runtime_set};
pub use saving::Saved;
pub use settings::{Off, Settings};
pub use writing::{DeleteFault, SaveFault};
