//! An application log in a ring of records: a full log erases its oldest sector to make room.
#![tactic(auto)]

mod appending;
mod dropping;
mod event_log;
mod laws;

pub use appending::LogFault;
pub use event_log::EventLog;
pub use laws::{
    blank_is_filled, drops_only_where_full, drops_where_full, items_give_log, log_is_of_records,
};
