//! Settings in a ring of FCB records: each record sets or deletes one name, and the last record of
//! a name decides.
#![tactic(auto)]

mod all;
mod backend;
mod collecting;
mod compaction;
mod lookup;
mod mounting;
mod names;
mod record;
mod writing;

pub use backend::FcbBackend;
pub use fcb_ring::chance;
