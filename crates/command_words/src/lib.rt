//! The command line of `image_tool`: its commands, and the reader of their words over `clap`.
#![tactic(auto)]

mod commands;
mod forms;
mod found;
mod operands;
mod reading;

pub use commands::{Command, MOST_LINES, StoreKind};
pub use reading::{one_command, read_words};
