// Looking records up.
ghost use Rattle.std.specs.Prelude.{◌≡◌, ◌*◌, ◌≤◌, ℕ, List, [], length, sum_by, All, option_map};
ghost use Rattle.flash_sim.specs.declared.flash.TheConstants.{PROGRAM_LIMIT};
ghost use Rattle.flash_map.specs.Area.{value_limit, unit_of, sector_size};
ghost use Rattle.fcb_ring.specs.Standing.{StandsOn as RingStandsOn};
ghost use Rattle.record_settings.specs.Last.{last_value as last_value_of};
ghost use Rattle.record_settings.specs.Room.{put_cost, room};
ghost use Rattle.backend_fcb.specs.Standing.{bodies_on, settings_on};
ghost use Rattle.backend_fcb.specs.Compaction.{IsKept, bodies_at};
ghost use Rattle.backend_fcb.specs.declared.compaction.TheConstants.{TABLE};

use crate::compaction::{Kept, Table, find_live};
use crate::record::{put_cost, start_of, value_limit};
use fcb_ring::Ring;
use flash_map::geometry;
use flash_sim::{Flash, Steps};
use setting_name::Name;
use std::sync::ledger::Ledger;

// The value that the last record of a name gives it; no bytes are a delete. That record is the last
// one that begins with the name and `=` and is not too long.
pub(crate) fn last_value<'a, F: Flash, L: Ledger>(
    ring: &Ring,
    flash: &'a F,
    name: &Name,
    steps: &mut Steps<L>,
) -> Option<&'a [u8]>
    requires { RingStandsOn (F.device flash.now) ring.now }
    ensures { option_map (λ value. value.now) result
        ≡ last_value_of (value_limit ring.now.area) name.now
        (bodies_on (F.device flash.now) ring.now.area) }
{
    let start = start_of(name);
    let prefix = start.as_slice();
    let limit = value_limit(ring);
    let most = prefix.len() + limit;
    match ring.last_with(flash, prefix, most, steps) {
        Some(entry) => {
            let body = ring.body(flash, &entry, steps);
            let value = &body[prefix.len()..];
            Some(value)
        }
        None => None,
    }
}

// What the records of a table cost, in bytes.
fn cost_of<F: Flash, L: Ledger>(ring: &Ring, flash: &F, table: &[Kept], steps: &mut Steps<L>) -> u64
    requires stands { RingStandsOn (F.device flash.now) ring.now }
    requires kept { All (IsKept (F.device flash.now) ring.now.area) table.now }
    requires few { length table.now ≤ TABLE }
    ensures cost { let d = F.device flash.now in
        result
        ≡ sum_by (put_cost (value_limit ring.now.area) (unit_of d ring.now.area))
        (bodies_at d ring.now.area table.now) }
    ensures small { result ≤ PROGRAM_LIMIT * length table.now }
{
    let unit = geometry(flash, ring.area()).unit;
    let mut cost = 0;
    for kept in table {
        cost += u64::from(put_cost(ring, unit, ring.body(flash, &kept.at, steps)));
    }
    cost
}

// What all settings cost, in bytes. For each table that live records fill, it walks once over what
// is left of the list.
pub(crate) fn live_cost<F: Flash, L: Ledger>(ring: &Ring, flash: &F, steps: &mut Steps<L>) -> u64
    requires { RingStandsOn (F.device flash.now) ring.now }
    ensures { let d = F.device flash.now in
        result
        ≡ (room (unit_of d ring.now.area) (sector_size d ring.now.area)).cost
        (settings_on d ring.now.area) }
{
    let mut table = Table::new();
    let mut live = 0;
    let mut at = ring.next(flash, None, steps);
    while let Some(from) = at {
        at = find_live(ring, flash, &mut table, Some(from), None, steps);
        live += cost_of(ring, flash, table.as_slice(), steps);
    }
    live
}
