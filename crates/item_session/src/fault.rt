// Why lines were not all carried out.
use flash_map::Damaged;

/// Why lines were not all carried out.
#[derive(Clone, Copy, Debug, PartialEq, Eq)]
pub enum SessionFault {
    /// The opening mount found the area damaged.
    Damaged(Damaged),
    /// There was not enough memory.
    NoMemory,
}
