//! A session on settings: it carries out the lines of a script on the areas of an image, and
//! answers each. The selector says which area is active, and a migration moves the settings
//! to the next one.
#![tactic(auto)]

mod areas;
mod changing;
mod fault;
mod handling;
mod mounting;
mod moving;
mod planning;
mod reporting;
mod running;
mod session;

pub use fault::SessionFault;
pub use running::{Answers, run_lines};
pub use session::Session;
