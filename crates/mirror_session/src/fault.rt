// Why lines were not all carried out.
use flash_map::Damaged;

/// Why lines were not all carried out.
#[derive(Clone, Copy, Debug, PartialEq, Eq)]
pub enum SessionFault {
    /// A mount found the area at this place of the map damaged.
    Damaged { area: usize, damage: Damaged },
    /// A mount found settings that do not fit the area at this place.
    Unfit { area: usize },
    /// There was not enough memory.
    NoMemory,
}
