//! A cache of look-ups: where the latest entry of an id was written, and the greatest slot noted in
//! each of the first 64 sectors.
#![tactic(auto)]

mod cache;
pub mod laws;

pub use cache::Cache;
