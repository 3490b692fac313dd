//! What a settings session must answer: for each line of a script and each power loss, the answers
//! that a plain map of names to values allows.
#![tactic(auto)]

pub mod laws;
