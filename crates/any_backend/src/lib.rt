//! Settings in an area of NVS, ZMS or FCB. The area's role says which store it is.
#![tactic(auto)]

mod backend;
mod laws;
mod tearing;

pub use backend::AnyBackend;
pub use laws::{blank_areas, boot_units_by_role, boot_within_mount};
pub use tearing::chance;
