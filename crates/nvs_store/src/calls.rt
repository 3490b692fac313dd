// The calls that program the open sector of an area.
ghost use Rattle.std.specs.Prelude.{◌≡◌, ◌⊎◌, ◌+◌, ◌/◌, ◌*◌, ◌^◌, ◌<◌, ◌≤◌, ◌∷◌, [], ◌++◌, length, replicate, is_err, true, false, OnOk, OnErr};
ghost use Rattle.flash_map.specs.Area.{IsLawfulArea, unit_of, sectors_of, sector_bytes, Writes, WritesPart};
ghost use Rattle.flash_map.specs.Copies.{pieces_of, TakesViews};
ghost use Rattle.flash_map.specs.Pieces.{CanProgramAll, LosesWithin};
ghost use Rattle.flash_map.specs.Spending.{Spends, SpendsAtMost};
ghost use Rattle.flash_map.specs.Touches.{Touches};
ghost use Rattle.flash_map.specs.Units.{padded, padded_bytes};
ghost use Rattle.nvs_store.specs.declared.scan.Redo.TheVariants.{Nothing};
ghost use Rattle.nvs_store.specs.Geometry.{slot_size, cost};
ghost use Rattle.nvs_store.specs.Images.{after_gc_done, after_close};
ghost use Rattle.nvs_store.specs.Sector.{special_entry, is_sound, pairs, pairs_cost};
ghost use Rattle.nvs_store.specs.Scans.{free};
ghost use Rattle.nvs_store.specs.On.{AppendsOn, ClosesOn, FitsOn, KeepsListOn, IsScanned, IsSource, MarksDoneOn, PairEnds, StaysSoundOn, StaysUndamaged, StopsMarkingOn, append_piece, bytes_on, capacity_on, copy_piece, is_closed_on, scan_on, slot_units};

use crate::entry::{Entry, SPECIAL_ID, encode_entry};
use crate::geometry::slot_size;
use crate::scan::{Found, Scan};
use flash_map::{Area, Source, area_program, copy_padded, geometry, padded, program_padded};
use flash_sim::{Flash, PowerLost, Steps};
use std::sync::ledger::Ledger;

// The eight bytes of an entry with FF behind them, up to the greatest slot.
fn filled(bytes: &[u8; 8]) -> [u8; 16]
    ensures { result ≡ bytes.now ++ replicate 8 0xFF }
{
    let mut slot = [0xFF; 16];
    slot[..8].copy_from_slice(bytes);
    slot
}

// Programs the eight bytes of an entry, with FF behind them up to a whole slot, in one call.
fn put_slot<F: Flash>(
    flash: &mut F,
    area: &Area,
    sector: u32,
    start: u32,
    bytes: &[u8; 8],
) -> Result<(), PowerLost>
    requires lawful { IsLawfulArea (F.device flash.old).banks area.now }
    requires can { let d = F.device flash.old in
        CanProgramAll d area.now sector start (padded_bytes (unit_of d area.now) bytes.now) }

    ensures touches { Touches (area.now ∷ []) (F.device flash.old) (F.device flash.new)
        (is_err result) }
    ensures ok { let d = F.device flash.old in
        let all = padded_bytes (unit_of d area.now) bytes.now in
        OnOk result (Writes d (F.device flash.new) area.now sector start all) }
    ensures spent { let d = F.device flash.old in let unit = unit_of d area.now in
        OnOk result (Spends d (F.device flash.new) (padded unit (length bytes.now) / unit)) }

    ensures lost { let d = F.device flash.old in
        let all = padded_bytes (unit_of d area.now) bytes.now in
        OnErr result (WritesPart d (F.device flash.new) area.now sector start all) }
    ensures in_slot { OnErr result (LosesWithin 16 (F.device flash.old) (F.device flash.new)) }
    ensures spent_at_most { let d = F.device flash.old in let unit = unit_of d area.now in
        OnErr result (SpendsAtMost d (F.device flash.new) (padded unit (length bytes.now) / unit)) }
{
    let size = slot_size(geometry(flash, area).unit) as usize;
    let slot = filled(bytes);
    area_program(flash, area, sector, start, &slot[..size])
}

/// Appends a pair to the list: it programs the data, padded with FF to the unit, in calls of at
/// most `PIECE` bytes, and then its entry in the next slot. No bytes are a delete.
///
/// # Errors
/// `PowerLost`: the list is as before or has the pair too, and no more room is used up than the
/// pair takes. The scan may no longer be that of the area: mount the area again.
#[tactic(auto, using(flash_map::proofs::Touches::then))]
pub fn append<F: Flash>(
    flash: &mut F,
    area: &Area,
    scan: &mut Scan,
    id: u16,
    bytes: &[u8],
) -> Result<(), PowerLost>
    requires scanned { IsScanned (F.device flash.old) area.now scan.old }
    requires redo { scan.old.redo ≡ Nothing }
    requires ordinary { id < 0xFFFF }
    requires fits { FitsOn (F.device flash.old) area.now scan.old (length bytes.now) }

    ensures touches { Touches (area.now ∷ []) (F.device flash.old) (F.device flash.new)
        (is_err result) }
    ensures ends { let d = F.device flash.old in let e = F.device flash.new in
        PairEnds append_piece d e area.now scan.old scan.new id (length bytes.now) bytes.now
        result }
    ensures list { OnOk result
        (AppendsOn (F.device flash.old) (F.device flash.new) area.now id bytes.now) }
    ensures list_lost { let d = F.device flash.old in
        OnErr result
        (KeepsListOn d (F.device flash.new) area.now
        ⊎ AppendsOn d (F.device flash.new) area.now id bytes.now) }
    ensures sound { StaysSoundOn (F.device flash.old) (F.device flash.new) area.now
        scan.old.current }
    ensures undamaged { StaysUndamaged (F.device flash.old) (F.device flash.new) area.now }
{
    let unit = geometry(flash, area).unit;
    let entry = Entry {
        id,
        offset: scan.data_end as u16,
        len: bytes.len() as u16,
        part: 0xFF,
    };
    let slot = scan.low - slot_size(unit);
    program_padded(flash, area, scan.current, scan.data_end, bytes)?;
    put_slot(flash, area, scan.current, slot, &encode_entry(&entry))?;
    scan.low = slot;
    scan.data_end += padded(unit, bytes.len() as u32);
    Ok(())
}

/// Copies an entry of another sector to the open one, whose part of the list gains that pair. It
/// copies the data, padded with FF to the unit, in calls of at most `COPY_PIECE` bytes, and then
/// programs its entry in the next slot. It views each piece of the data once, and nothing else.
///
/// # Errors
/// `PowerLost`: the open sector's part of the list is as before or has the pair too. No other
/// sector changed. The scan may no longer be that of the area: mount the area again.
#[tactic(auto, using(flash_map::proofs::Touches::then))]
pub fn copy_entry<F: Flash, L: Ledger>(
    flash: &mut F,
    area: &Area,
    scan: &mut Scan,
    from: &Found,
    steps: &mut Steps<L>,
) -> Result<(), PowerLost>
    requires scanned { IsScanned (F.device flash.old) area.now scan.old }
    requires source { IsSource (F.device flash.old) area.now scan.old from.now }
    requires free { let unit = unit_of (F.device flash.old) area.now in
        cost unit from.now.entry.len + 3 * slot_size unit ≤ free scan.old }

    ensures touches { Touches (area.now ∷ []) (F.device flash.old) (F.device flash.new)
        (is_err result) }
    ensures ends { let d = F.device flash.old in let e = F.device flash.new in
        PairEnds copy_piece d e area.now scan.old scan.new from.now.entry.id from.now.entry.len
        (bytes_on d area.now from.now) result }
    ensures views { TakesViews (pieces_of from.now.entry.len) steps.old steps.new result }
{
    let unit = geometry(flash, area).unit;
    let entry = Entry {
        id: from.entry.id,
        offset: scan.data_end as u16,
        len: from.entry.len,
        part: 0xFF,
    };
    let slot = scan.low - slot_size(unit);
    let source = Source {
        sector: from.sector,
        offset: from.entry.offset as u32,
        len: from.entry.len as u32,
    };
    copy_padded(flash, area, source, scan.current, scan.data_end, steps)?;
    let bytes = encode_entry(&entry);
    put_slot(flash, area, scan.current, slot, &bytes)?;
    scan.low = slot;
    scan.data_end += padded(unit, source.len);
    Ok(())
}

// The entry of close and of gc-done.
fn special(place: u32) -> Entry
    requires { place < 2 ^ 16 }
    ensures { result ≡ special_entry place }
{
    Entry {
        id: SPECIAL_ID,
        offset: place as u16,
        len: 0,
        part: 0xFF,
    }
}

/// Programs gc-done, which names the data end, in the next slot. From then on the open sector
/// counts, and the next one, if it is closed, is ignored.
///
/// # Errors
/// `PowerLost`: the open sector's part of the list and its marks are as before. A slot may be used
/// up. Mount the area again.
pub fn put_done<F: Flash>(flash: &mut F, area: &Area, scan: &mut Scan) -> Result<(), PowerLost>
    requires scanned { IsScanned (F.device flash.old) area.now scan.old }
    requires free { 2 * slot_size (unit_of (F.device flash.old) area.now) ≤ free scan.old }

    ensures touches { Touches (area.now ∷ []) (F.device flash.old) (F.device flash.new)
        (is_err result) }
    ensures ok { let d = F.device flash.old in
        OnOk result (MarksDoneOn d (F.device flash.new) area.now scan.old.current) }
    ensures image { let d = F.device flash.old in
        OnOk result (sector_bytes (F.device flash.new) area.now scan.old.current
        ≡ after_gc_done (unit_of d area.now) (sector_bytes d area.now scan.old.current)) }
    ensures scan { OnOk result (scan.new ≡ scan_on (F.device flash.new) area.now) }
    ensures spent { let d = F.device flash.old in
        OnOk result (Spends d (F.device flash.new) (slot_units d area.now)) }
    ensures sound { let d = F.device flash.old in let unit = unit_of d area.now in
        OnOk result
        (pairs_cost unit (pairs unit (sector_bytes d area.now scan.old.current))
        ≤ capacity_on d area.now
        → is_sound unit (sector_bytes (F.device flash.new) area.now scan.old.current) ≡ true) }

    ensures lost { let d = F.device flash.old in
        OnErr result (StopsMarkingOn d (F.device flash.new) area.now scan.old.current) }
    ensures spent_at_most { let d = F.device flash.old in
        OnErr result (SpendsAtMost d (F.device flash.new) (slot_units d area.now)) }
{
    let unit = geometry(flash, area).unit;
    let slot = scan.low - slot_size(unit);
    let bytes = encode_entry(&special(scan.data_end));
    put_slot(flash, area, scan.current, slot, &bytes)?;
    scan.low = slot;
    scan.gc_done = true;
    scan.redo = scan.redo.marked();
    Ok(())
}

/// Programs the close entry, which names the start of the lowest used slot, in slot 0. Its first
/// unit closes the sector.
///
/// # Errors
/// `PowerLost`: no byte of the area changed, or the sector is closed. Mount the area again.
pub fn put_close<F: Flash>(flash: &mut F, area: &Area, scan: &Scan) -> Result<(), PowerLost>
    requires scanned { IsScanned (F.device flash.old) area.now scan.now }
    requires not_closed { is_closed_on (F.device flash.old) area.now scan.now.current ≡ false }

    ensures touches { Touches (area.now ∷ []) (F.device flash.old) (F.device flash.new)
        (is_err result) }
    ensures ok { let d = F.device flash.old in
        OnOk result (ClosesOn d (F.device flash.new) area.now scan.now.current) }
    ensures image { let d = F.device flash.old in
        OnOk result (sector_bytes (F.device flash.new) area.now scan.now.current
        ≡ after_close (unit_of d area.now) (sector_bytes d area.now scan.now.current)) }
    ensures spent { let d = F.device flash.old in
        OnOk result (Spends d (F.device flash.new) (slot_units d area.now)) }

    ensures lost { let d = F.device flash.old in
        OnErr result ((sectors_of (F.device flash.new) area.now ≡ sectors_of d area.now)
        ⊎ ClosesOn d (F.device flash.new) area.now scan.now.current) }
    ensures spent_at_most { let d = F.device flash.old in
        OnErr result (SpendsAtMost d (F.device flash.new) (slot_units d area.now)) }
{
    let g = geometry(flash, area);
    let top = g.sector - slot_size(g.unit);
    let bytes = encode_entry(&special(scan.low));
    put_slot(flash, area, scan.current, top, &bytes)
}
