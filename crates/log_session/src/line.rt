// The lines of a script on a log.
use script_lines::Bytes;

/// A line of a script on a log.
#[derive(Drop)]
pub enum Line {
    /// Appends a record with this body, which has at least one byte.
    Put { body: Bytes },
    /// Asks for all records.
    Records,
    /// Plans a power loss after `units` further units and erases, fewer than
    /// `script_lines::UNITS_END`.
    Cut { units: u64 },
    /// Drops the plan.
    Uncut,
    /// Restores power and mounts.
    Mount,
}
