// What the units programmed before a power loss spell.
ghost use Rattle.std.specs.Prelude.{◌≡◌, ◌-◌, ◌*◌, ◌<◌, ◌≤◌, ◌&&◌, ◌++◌, not, true, length, take, replicate};
ghost use Rattle.std.specs.Str.{bytes_eq};
ghost use Rattle.flash_sim.specs.declared.flash.TheConstants.{PROGRAM_LIMIT};
ghost use Rattle.flash_map.specs.Units.{IsUnit};
ghost use Rattle.fcb_ring.specs.Chance.{bytes_put, is_behind_header, is_part, is_record, chance_on, ReportsChance};
ghost use Rattle.fcb_ring.specs.Standing.{IsRingArea};

use crate::image::push_all;
use crate::record::record_at;
use crate::ring::read_states;
use crate::sequence::is_full;
use arrayvec::ArrayVec;
use flash_map::{Area, geometry};
use flash_sim::{Flash, Loss, PROGRAM_LIMIT, Steps};
use std::sync::ledger::Ledger;

// Whether the loss lies in the area, and does not begin a sector.
fn is_behind_header(area: &Area, size: u32, loss: &Loss) -> bool
    requires { 0 < size }
    ensures { result ≡ is_behind_header area.now size loss.now }
{
    let at = u64::from(loss.at.offset);
    let size = u64::from(size);
    let first = u64::from(area.first);
    let end = first + u64::from(area.sectors);
    loss.at.bank == area.bank && first * size <= at && at < end * size && at % size != 0
}

// Whether some of the units were put, and not all.
fn is_part(unit: u32, loss: &Loss) -> bool
    ensures { result ≡ is_part unit loss.now }
{
    let put = u64::from(loss.done) * u64::from(unit);
    0 < loss.done && put < loss.want.len() as u64
}

// So many units of these bytes, with FF behind them.
fn bytes_put(unit: u32, done: u32, want: &[u8]) -> ArrayVec<u8, PROGRAM_LIMIT>
    requires part { done * unit < length want.now }
    requires short { length want.now ≤ PROGRAM_LIMIT }
    ensures { result.items
        ≡ take (done * unit) want.now ++ replicate (length want.now - done * unit) 0xFF }
{
    let put = done as usize * unit as usize;
    let mut bytes = ArrayVec::new();
    push_all(&mut bytes, &want[..put]);
    push_all(&mut bytes, &[0xFF; PROGRAM_LIMIT][..want.len() - put]);
    bytes
}

// Whether the bytes are one record, and it checks.
#[tactic(auto, unfolding(crate::specs::Records::record_at))]
fn is_record(unit: u32, bytes: &[u8]) -> bool
    requires unit { IsUnit unit }
    requires some { unit ≤ length bytes.now }
    requires short { length bytes.now ≤ PROGRAM_LIMIT }
    ensures { result ≡ is_record unit bytes.now }
{
    match record_at(bytes, unit, 0) {
        Some(record) => record.end as usize == bytes.len() && record.checks,
        None => false,
    }
}

// Whether the units that were put are another record than the intended one.
fn spells_other(unit: u32, loss: &Loss) -> bool
    requires unit { IsUnit unit }
    requires part { is_part unit loss.now ≡ true }
    ensures { result
        ≡ (is_record unit (bytes_put unit loss.now)
        && not (bytes_eq (bytes_put unit loss.now) loss.now.want.items)) }
{
    let want = loss.want.as_slice();
    let bytes = bytes_put(unit, loss.done, want);
    is_record(unit, bytes.as_slice()) && bytes.as_slice() != want
}

/// Whether a torn record passes as another one by chance: the units programmed before the loss,
/// with FF behind them, are a record that checks and differs from the intended one. It is false for
/// a loss in a header, in an erase or outside the area, and if no sector is free.
#[tactic(auto, unfolding(crate::specs::Chance::chance))]
pub fn chance<F: Flash, L: Ledger>(
    flash: &F,
    area: &Area,
    loss: &Loss,
    steps: &mut Steps<L>,
) -> bool
    requires { IsRingArea (F.device flash.now).banks area.now }
    ensures { result ≡ chance_on (F.device flash.now) area.now loss.now }
{
    let geometry = geometry(flash, area);
    let states = read_states(flash, area, steps);
    !is_full(states.as_slice())
        && is_behind_header(area, geometry.sector, loss)
        && is_part(geometry.unit, loss)
        && spells_other(geometry.unit, loss)
}

/// For a loss in a record, in an area with a free sector, `chance` is true exactly if the torn
/// record checks and is another one. For a loss in a header or in an erase, and if no sector is
/// free, it is false. The function does nothing; its contract is the law.
pub fn chance_of_a_record()
    ensures { ReportsChance }
{}
