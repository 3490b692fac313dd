//! Scripts on numbered items: the lines, their answers, and a session that carries them out on an
//! NVS or ZMS area, power losses included.
#![tactic(auto)]

mod answer;
mod fault;
mod ids;
mod laws;
mod line;
mod mounting;
mod plan;
mod planning;
mod reading;
mod reporting;
mod running;
mod script;
mod session;
mod writing;

pub use answer::{Answer, Answers, answer_text};
pub use fault::SessionFault;
pub use ids::Ids;
pub use laws::{
    acknowledged_items_stand, areas_take_values, blank_areas_are_fresh, history_stays_whole,
    line_by_line, lines_fit, power_follows_losses, two_runs, versions_go_for_room,
};
pub use line::Line;
pub use plan::{is_lost, units_of};
pub use running::run_lines;
pub use script::{each_is_read, one_meaning, read_script};
pub use script_lines::{Bytes, LineWhy, ScriptFault};
pub use session::ItemSession;
