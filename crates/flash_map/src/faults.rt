// Faults that all three stores return.

/// What kind of damage an area has: something that no power loss leaves.
#[derive(Clone, Copy, Debug, PartialEq, Eq)]
pub enum Why {
    /// Every sector is closed.
    AllClosed,
    /// A second sector that is not closed follows a closed one.
    TwoOpen,
    /// A sector holds bytes where it must hold none.
    Dirty,
    /// A sector has no erased slot under its entries.
    NoFence,
    /// A sector holds more than it may.
    Overfull,
    /// A used sector begins with no header.
    BadHeader,
    /// The used sectors are not one run with rising ids.
    BadSequence,
}

/// Damage of an area: the first kind of damage that a mount finds, and the first sector that shows
/// it.
#[derive(Clone, Copy, Debug, PartialEq, Eq)]
pub struct Damaged {
    /// The sector, counted from 0 in the area.
    pub sector: u32,
    /// The kind of damage.
    pub why: Why,
}

/// Why a mount gives no store.
#[derive(Clone, Copy, Debug, PartialEq, Eq)]
pub enum MountFault {
    /// The area is damaged. Nothing was programmed or erased.
    Damaged(Damaged),
    /// Power was off, or was lost in the mount. Another mount may follow.
    PowerLost,
    /// Memory ran out.
    NoMemory,
}

/// Why an item was not written.
#[derive(Clone, Copy, Debug, PartialEq, Eq)]
pub enum WriteFault {
    /// No garbage collection makes room. `need` is what the write takes, and `live` what all live
    /// items take, both in bytes. The items stay.
    NoSpace { need: u64, live: u64 },
    /// The item is too long for a sector. Nothing was programmed or erased.
    TooLong,
    /// Power was off, or was lost in the call. The item is as it was or as it was to be; the others
    /// stay.
    PowerLost,
}
