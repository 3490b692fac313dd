// Entries at their places, ranges and pairs of ids, looks at slots, and what a mount has to do.

/// An entry of a sector's list. The format of the sector says where its bytes lie.
#[derive(Clone, Copy)]
pub struct Entry {
    /// The number of the slot.
    pub slot: u32,
    /// The id of the item.
    pub id: u32,
    /// Bytes of the value; 0 is a delete.
    pub len: u32,
}

/// An entry with the number of its sector.
#[derive(Clone, Copy, Default, Drop)]
pub struct Placed {
    /// The sector, counted from 0 in the area.
    pub sector: u32,
    /// The number of the slot.
    pub slot: u32,
    /// The id of the item.
    pub id: u32,
    /// Bytes of the value; 0 is a delete.
    pub len: u32,
}

/// The ids from `least` to `most`, both included.
#[derive(Clone, Copy)]
pub struct IdRange {
    /// The first id of the range.
    pub least: u32,
    /// The last id of the range.
    pub most: u32,
}

/// How many of the first slots of a sector's list a search passes over, and how many of them are
/// known to be of the list, so that it need not check them.
#[derive(Clone, Copy)]
pub struct ListStart {
    /// The slots that are passed over.
    pub skipped: u32,
    /// The slots that are known.
    pub known: u32,
}

/// An id and one above it: that of a name and that of its value, say.
#[derive(Clone, Copy)]
pub struct IdPair {
    /// The id.
    pub lower: u32,
    /// The id above it.
    pub upper: u32,
}

/// Which of two ids some slots may have. `false` rules an id out; `true` promises nothing.
#[derive(Clone, Copy)]
pub struct MayHave {
    /// Whether a slot may have the lower id.
    pub lower: bool,
    /// Whether a slot may have the upper id.
    pub upper: bool,
}

/// What a slot holds, and how far to go back from it.
#[derive(Clone, Copy)]
pub struct LookBack {
    /// The entry in the slot; `None` if it has none.
    pub entry: Option<Placed>,
    /// How many of the first slots before it have to be read.
    pub reach: u32,
}

/// What a mount has to do before the area is at rest.
#[derive(Clone, Copy)]
pub enum Redo {
    /// No garbage collection was cut.
    Nothing,
    /// A garbage collection is done but for its last step: to empty the next sector, the victim.
    ClearNext,
    /// A garbage collection was cut before gc-done: it starts again into the open sector.
    CollectAgain,
}
