// The lines of a script on settings.
use crate::lists::Bytes;
use handlers::HandlerKind;
use setting_name::Name;

/// The units and erases of a `cut` are fewer than this.
pub const UNITS_END: u64 = 4_294_967_296;

/// A line of a script on settings.
#[derive(Drop)]
pub enum Line {
    /// Stores a value; the empty one deletes the name.
    Set { name: Name, value: Bytes },
    /// Asks for the value of a name.
    Get { name: Name },
    /// Deletes a name.
    Del { name: Name },
    /// Registers a handler of this kind for a subtree.
    Register { subtree: Name, kind: HandlerKind },
    /// Gives the stored settings to their handlers: all, or those of a subtree.
    Load { subtree: Option<Name> },
    /// Lists the stored settings: all, or those of a subtree.
    Direct { subtree: Option<Name> },
    /// Stores what the handlers hold: all of them, or those of a subtree.
    Save { subtree: Option<Name> },
    /// Commits all handlers.
    Commit,
    /// Gives a value to the handler of a name.
    RunSet { name: Name, value: Bytes },
    /// Asks the handler of a name for its value.
    RunGet { name: Name },
    /// Asks for all stored settings.
    Names,
    /// Restores power and mounts.
    Mount,
    /// Plans a power loss after `units` further units and erases, fewer than `UNITS_END`.
    Cut { units: u64 },
    /// Drops the plan.
    Uncut,
    /// Moves the settings to another area.
    Migrate,
}
