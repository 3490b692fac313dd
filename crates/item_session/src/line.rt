// The lines of a script on numbered items.
use script_lines::Bytes;

/// A line of a script on numbered items.
#[derive(Drop)]
pub enum Line {
    /// Sets an item to these bytes, at least one.
    Set { id: u32, value: Bytes },
    /// Asks for the bytes of an item.
    Get { id: u32 },
    /// Deletes an item.
    Delete { id: u32 },
    /// Asks for the n-th version of an item, counted from 0 for the newest.
    Older { id: u32, n: u32 },
    /// Asks what the items cost, what the other entries cost, and what is free.
    Space,
    /// Plans a power loss after `units` further units and erases, fewer than
    /// `script_lines::UNITS_END`.
    Cut { units: u64 },
    /// Drops the plan.
    Uncut,
    /// Restores power and mounts.
    Mount,
}

/// The number of a version that a line asks for is below this.
pub const VERSIONS_END: u64 = 4_294_967_296;
