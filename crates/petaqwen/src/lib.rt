//! Persistent settings for a program, in one crate to import: a `Board` is a flash with its
//! partitions, and a `Subsystem` is the settings on one of them with the program's handlers.
#![tactic(auto)]

mod board;
mod calls;
mod error;
mod subsystem;

pub use any_backend::AnyBackend;
pub use board::Board;
pub use error::Error;
pub use flash_map::{Area, Damaged, FlashMap, MountFault, Role, Why};
pub use flash_sim::{Bank, Bench, Flash, Kind, SparseSim};
pub use handlers::{
    CounterHandler, Handler, HandlerKind, LevelHandler, RegisterFault, SetRefusal, TableHandler,
    ValueView,
};
pub use image_file::SpecFault;
pub use setting_name::{Name, NameFault};
pub use settings_core::{LoadFault, Loaded, NoHandler, Off, RuntimeFault, SaveFault, Saved};
pub use subsystem::{OpenFault, Subsystem, Unopened};
