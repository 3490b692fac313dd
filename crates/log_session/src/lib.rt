//! Scripts on an application log: the lines, their answers, and a session that carries them out on
//! an FCB area, power losses included.
#![tactic(auto)]

mod answer;
mod appending;
mod fault;
mod laws;
mod line;
mod mounting;
mod plan;
mod planning;
mod reading;
mod reporting;
mod running;
mod script;
mod session;

pub use answer::{Answer, Answers, Bodies, answer_text};
pub use fault::SessionFault;
pub use laws::{
    acknowledged_records_stand, blank_owes_nothing, items_drop_where_full, line_by_line,
    lines_drop_where_full, lines_fit, power_follows_losses, runs_reach, two_runs,
};
pub use line::Line;
pub use plan::{is_lost, units_of};
pub use running::run_lines;
pub use script::{each_is_read, one_meaning, read_script};
pub use script_lines::{Bytes, LineWhy, ScriptFault};
pub use session::LogSession;
