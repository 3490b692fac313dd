//! Scripts on a mirror of settings: the lines, their answers, and a session that carries them out
//! on the two areas, power losses included.
#![tactic(auto)]

mod answer;
mod areas;
mod blanking;
mod carrying;
mod changing;
mod fault;
mod laws;
mod line;
mod mounting;
mod plan;
mod planning;
mod reading;
mod reporting;
mod running;
mod script;

pub use answer::{Answer, Answers, answer_text};
pub use carrying::MirrorSession;
pub use fault::SessionFault;
pub use laws::{
    acknowledged_commands_stand, areas_stay_mirrored, line_by_line, lines_fit, named_area_is_read,
    named_area_stays, power_follows_losses, two_runs,
};
pub use line::Line;
pub use plan::{is_lost, units_of};
pub use running::run_lines;
pub use script::{each_is_read, one_meaning, read_script};
pub use script_lines::{Answer as SettingsAnswer, Bytes, Label, LineWhy, Pair, Pairs, ScriptFault};
