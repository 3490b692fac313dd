// What one sector is.
ghost use Rattle.std.specs.Prelude.{◌≡◌, ◌≤◌, length};
ghost use Rattle.fcb_ring.specs.SectorStates.{IsSector, is_torn, id_of, state_of};

use crate::record::{has_record, records_end};
use flash_map::is_erased;

/// What the bytes of a sector say.
#[derive(Clone, Copy, Default)]
pub struct SectorState {
    /// It holds a torn header: its first four bytes, and FF behind them. Such a sector is free.
    pub is_torn: bool,
    /// It is all FF, or holds a torn header. Any other sector is used.
    pub is_free: bool,
    /// It begins as a whole header does.
    pub has_header: bool,
    /// The id field of its header. Ids rise by one from sector to sector, modulo 65,536.
    pub id: u16,
    /// Where the next record goes, in bytes.
    pub end: u32,
    /// A record passes the sector's end.
    pub is_overfull: bool,
    /// A byte behind the records is not FF.
    pub is_dirty: bool,
}

/// All of a header before the id: four bytes of magic, the version and a byte of padding.
pub(crate) const LEAD: [u8; 6] = [0xEE, 0xEE, 0xFF, 0xC0, 0x01, 0xFF];

#[tactic(auto, unfolding(crate::specs::SectorStates::is_torn))]
pub(crate) fn is_torn(sector: &[u8]) -> bool
    requires { 4 ≤ length sector.now }
    ensures { result ≡ is_torn sector.now }
{
    sector.starts_with(&LEAD[..4]) && is_erased(&sector[4..])
}

#[tactic(auto, unfolding(crate::specs::SectorStates::id_of))]
fn id_of(sector: &[u8]) -> u16
    requires { 8 ≤ length sector.now }
    ensures { result ≡ id_of sector.now }
{
    u16::from_le_bytes([sector[6], sector[7]])
}

// The state of a sector.
#[tactic(auto, unfolding(crate::specs::SectorStates::state_of))]
pub(crate) fn state_of(sector: &[u8], unit: u32) -> SectorState
    requires { IsSector unit sector.now }
    ensures { result ≡ state_of unit sector.now }
{
    let is_torn = is_torn(sector);
    let is_blank = is_erased(sector);
    let end = records_end(sector, unit);
    let has_header = sector.starts_with(&LEAD);
    let is_overfull = has_record(sector, end as usize);
    let is_clean = is_erased(&sector[end as usize..]);
    SectorState {
        is_torn,
        is_free: is_blank | is_torn,
        has_header,
        id: id_of(sector),
        end,
        is_overfull,
        is_dirty: !is_clean,
    }
}
