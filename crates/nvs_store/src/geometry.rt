// Units, slots and room.
ghost use Rattle.std.specs.Prelude.{◌≡◌, ◌+◌, ◌-◌, ◌<◌, ◌≤◌, ◌^◌};
ghost use Rattle.flash_map.specs.Units.{IsUnit};
ghost use Rattle.nvs_store.specs.Geometry.{slot_size, cost, capacity};
ghost use Rattle.nvs_store.specs.Scans.{fits};

use crate::scan::Scan;
use flash_map::Geometry;

/// The bytes of a slot: an entry's eight, rounded up to the unit. A search asks for it at each
/// slot, so it does not divide.
pub fn slot_size(unit: u32) -> u32
    requires { IsUnit unit }
    ensures size { result ≡ slot_size unit }
    ensures at_least { 8 ≤ result }
    ensures at_most { result ≤ 16 }
{
    unit.max(8)
}

/// What data of `len` bytes and its entry take up of a sector, in bytes.
#[tactic(auto, unfolding(flash_map::specs::Units::padded))]
pub fn cost(unit: u32, len: u32) -> u64
    requires { IsUnit unit }
    ensures value { result ≡ cost unit len }
    ensures at_most { result ≤ len + 31 }
{
    let wide = u64::from(unit);
    u64::from(slot_size(unit)) + (u64::from(len) + (wide - 1)) / wide * wide
}

/// What a sector of this many bytes has for data and entries, in bytes: all but the slots for
/// close, gc-done, one delete and the fence.
pub fn capacity(unit: u32, sector: u32) -> u32
    requires { IsUnit unit }
    ensures { result ≡ capacity unit sector }
{
    sector.saturating_sub(4 * slot_size(unit))
}

/// Whether data of `len` bytes and its entry fit the sector that was scanned. A `len` of 0 is a
/// delete.
pub fn fits(g: &Geometry, scan: &Scan, len: u32) -> bool
    requires unit { IsUnit g.now.unit }
    requires at_least { 512 ≤ g.now.sector }
    requires at_most { g.now.sector ≤ 32768 }
    ensures { result ≡ fits g.now.unit scan.now len }
{
    let free = u64::from(scan.low.saturating_sub(scan.data_end));
    let size = u64::from(slot_size(g.unit));
    if len == 0 {
        return 2 * size <= free;
    }
    let reserve = if scan.gc_done { 2 } else { 3 };
    cost(g.unit, len) + reserve * size <= free
}
