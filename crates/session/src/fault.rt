// Why a line was not carried out.
use flash_map::Damaged;

/// Why a line was not carried out.
#[derive(Clone, Copy, Debug, PartialEq, Eq)]
pub enum SessionFault {
    /// A mount found the area at this place of the map damaged.
    Damaged { area: usize, damage: Damaged },
    /// There was not enough memory.
    NoMemory,
}
