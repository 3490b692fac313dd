//! Definitions and laws that all stores of numbered items share: which entry of an id is the
//! latest, which entries are live, which sector is open, and when garbage collection makes no room.
//! They read no bytes of flash, and the crate has no function but its laws.
#![tactic(auto)]

pub mod laws;
