//! The jobs of `image_tool` on numbered items, on an application log and on a mirror of settings. A
//! job takes an image, carries out the lines of a script on it, power losses included, and keeps
//! the answers and the image that is left.
#![tactic(auto)]

mod item_opening;
mod item_running;
mod laws;
mod log_opening;
mod log_running;
mod mirror_opening;
mod mirror_running;
mod report;

pub use item_running::run_item_job;
pub use laws::item_boot_units_by_role;
pub use log_running::run_log_job;
pub use mirror_running::run_mirror_job;
