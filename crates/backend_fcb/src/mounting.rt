// The check of costs in a mount.
ghost use Rattle.std.specs.Prelude.{◌≡◌, ℕ, ◌<◌, slice_index, option_map};
ghost use Rattle.flash_map.specs.Area.{value_limit, unit_of, sectors_of};
ghost use Rattle.flash_map.specs.declared.faults.Why.TheVariants.{Overfull};
ghost use Rattle.fcb_ring.specs.Standing.{StandsOn as RingStandsOn, entries_on};
ghost use Rattle.backend_fcb.specs.Reading.{puts_cost, first_overfull};

use crate::record::{cap, put_cost};
use fcb_ring::Ring;
use flash_map::{Damaged, Why, geometry};
use flash_sim::{Flash, Steps};
use std::sync::ledger::Ledger;

// The most sectors of an area.
const SECTORS: usize = 64;

// For each sector, what its records that put a value cost, in bytes.
fn costs<F: Flash, L: Ledger>(ring: &Ring, flash: &F, steps: &mut Steps<L>) -> [u64; SECTORS]
    requires { RingStandsOn (F.device flash.now) ring.now }
    ensures { let d = F.device flash.now in
        (place : ℕ) → place < SECTORS
        → slice_index result place
        ≡ puts_cost (value_limit ring.now.area) (unit_of d ring.now.area)
        (entries_on d ring.now.area) place }
{
    let unit = geometry(flash, ring.area()).unit;
    let mut costs = [0; SECTORS];
    let mut at = ring.next(flash, None, steps);
    while let Some(entry) = at {
        let cost = put_cost(ring, unit, ring.body(flash, &entry, steps));
        costs[entry.sector as usize] += u64::from(cost);
        at = ring.next(flash, Some(entry), steps);
    }
    costs
}

// The lowest sector in which the records that put a value cost more than it has for them.
pub(crate) fn first_overfull<F: Flash, L: Ledger>(
    ring: &Ring,
    flash: &F,
    steps: &mut Steps<L>,
) -> Option<Damaged>
    requires { RingStandsOn (F.device flash.now) ring.now }
    ensures { let d = F.device flash.now in
        result
        ≡ option_map (λ place. record { sector = place; why = Overfull })
        (first_overfull (value_limit ring.now.area) (unit_of d ring.now.area)
        (sectors_of d ring.now.area)) }
{
    let geometry = geometry(flash, ring.area());
    let most = u64::from(cap(geometry));
    let costs = costs(ring, flash, steps);
    for sector in 0..geometry.sectors {
        if most < costs[sector as usize] {
            return Some(Damaged {
                sector,
                why: Why::Overfull,
            });
        }
    }
    None
}
