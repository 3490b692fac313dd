//! Settings as a list of records: what the bodies of records say, which of them garbage collection
//! keeps, and what they cost. The crate has definitions and laws only.
#![tactic(auto)]

pub mod laws;
