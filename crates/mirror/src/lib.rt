//! A mirror: two areas of NVS or ZMS that hold the same settings. A command goes to the trusted
//! area first and then to the other one. A mount repairs the other one after a power loss.
#![tactic(auto)]

mod areas;
mod comparing;
mod fitting;
mod mirror;
mod mounting;
mod priced;
mod sides;
mod store;
mod trusting;
mod walking;

pub use mirror::Mirror;
pub use mounting::MirrorMount;
pub use priced::Priced;
pub use sides::Side;
pub use store::MirrorStore;
