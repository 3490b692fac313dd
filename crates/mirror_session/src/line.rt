// The lines of a script on a mirror.
use script_lines::{Bytes, Label};
use setting_name::Name;

/// A line of a script on a mirror.
#[derive(Drop)]
pub enum Line {
    /// Stores a value; the empty one deletes the name.
    Set { name: Name, value: Bytes },
    /// Asks for the value of a name.
    Get { name: Name },
    /// Deletes a name.
    Del { name: Name },
    /// Asks for all settings.
    Names,
    /// Restores power and mounts.
    Mount,
    /// Plans a power loss after `units` further units and erases, fewer than
    /// `script_lines::UNITS_END`.
    Cut { units: u64 },
    /// Drops the plan.
    Uncut,
    /// Replaces the area with this label, of 1 to 8 bytes of `a` to `z` and `0` to `9`,
    /// by a blank one.
    Blank { label: Label },
}
