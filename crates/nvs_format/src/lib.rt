//! The sector format of NVS for `item_store`: how entries read, what damage is, and what each step
//! spends.
#![tactic(auto)]
