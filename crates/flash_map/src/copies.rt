// Copying from one sector of an area to another.
ghost use Rattle.std.specs.Prelude.{◌≡◌, ◌+◌, ◌-◌, ◌/◌, ◌≤◌, ◌<◌, ◌^◌, ◌++◌, ◌∷◌, [], length, replicate, is_err, slice_range, OnOk, OnErr};
ghost use Rattle.flash_map.specs.Area.{IsLawfulArea, unit_of, sector_size, sector_bytes, Writes, WritesPart};
ghost use Rattle.flash_map.specs.Copies.{source, pieces_of, TakesViews};
ghost use Rattle.flash_map.specs.Pieces.{CanProgramAll, LosesWithin};
ghost use Rattle.flash_map.specs.declared.copies.TheConstants.{COPY_PIECE};
ghost use Rattle.flash_map.specs.Spending.{SpendsOrLoses};
ghost use Rattle.flash_map.specs.Touches.{Touches};
ghost use Rattle.flash_map.specs.Units.{padded, padded_bytes};

use crate::{Area, area_program, area_view, geometry, padded};
use flash_sim::{Flash, PowerLost, Steps};
use std::sync::ledger::Ledger;

/// A range of bytes of one sector of an area.
#[derive(Clone, Copy)]
pub struct Source {
    /// The sector, counted from 0 in the area.
    pub sector: u32,
    /// Bytes from the start of the sector.
    pub offset: u32,
    /// Bytes of the range.
    pub len: u32,
}

/// The most bytes that `copy_padded` programs in one call. Every unit divides it.
pub const COPY_PIECE: u32 = 32;

// Some bytes of a sector, at most a piece, with FF behind them. It views them once.
fn piece_of<F: Flash, L: Ledger>(
    flash: &F,
    area: &Area,
    from: Source,
    steps: &mut Steps<L>,
) -> [u8; 32]
    requires lawful { IsLawfulArea (F.device flash.now).banks area.now }
    requires has_sector { from.sector < area.now.sectors }
    requires short { from.len ≤ COPY_PIECE }
    requires inside { from.offset + from.len ≤ sector_size (F.device flash.now) area.now }
    ensures bytes { let d = F.device flash.now in
        result ≡ source d area.now from ++ replicate (32 - from.len) 0xFF }
    ensures step { steps.new ≡ steps.old + 1 }
{
    let mut piece = [0xFF; 32];
    let seen = area_view(flash, area, from.sector, from.offset, from.len, steps);
    piece[..from.len as usize].copy_from_slice(seen);
    piece
}

/// Copies a range of bytes from another sector, with FF behind them up to whole units. It programs
/// upward, in pieces of at most `COPY_PIECE` bytes, through a buffer of its own. It views each piece
/// once.
///
/// # Errors
/// `PowerLost` if power was off: nothing changed. Or if it was lost in the call: fewer than all
/// units are programmed, the lowest first.
#[tactic(auto, using(crate::proofs::Touches::then))]
pub fn copy_padded<F: Flash, L: Ledger>(
    flash: &mut F,
    area: &Area,
    from: Source,
    sector: u32,
    offset: u32,
    steps: &mut Steps<L>,
) -> Result<(), PowerLost>
    requires lawful { IsLawfulArea (F.device flash.old).banks area.now }
    requires has_source { from.sector < area.now.sectors }
    requires inside { from.offset + from.len ≤ sector_size (F.device flash.old) area.now }
    requires other { from.sector ≡ sector → ⊥ }
    requires short { from.len < 2 ^ 30 }
    requires can { let d = F.device flash.old in
        CanProgramAll d area.now sector offset
        (padded_bytes (unit_of d area.now) (source d area.now from)) }

    ensures touches { Touches (area.now ∷ []) (F.device flash.old) (F.device flash.new)
        (is_err result) }
    ensures ok { let d = F.device flash.old in
        OnOk result
        (Writes d (F.device flash.new) area.now sector offset
        (padded_bytes (unit_of d area.now) (source d area.now from))) }
    ensures lost { let d = F.device flash.old in
        OnErr result
        (WritesPart d (F.device flash.new) area.now sector offset
        (padded_bytes (unit_of d area.now) (source d area.now from))) }
    ensures in_pieces { OnErr result
        (LosesWithin COPY_PIECE (F.device flash.old) (F.device flash.new)) }

    ensures spent { let unit = unit_of (F.device flash.old) area.now in
        SpendsOrLoses (F.device flash.old) (F.device flash.new) (padded unit from.len / unit)
        result }
    ensures views { TakesViews (pieces_of from.len) steps.old steps.new result }
{
    let all = padded(geometry(flash, area).unit, from.len);
    let mut done = 0;
    while done < all {
        let end = all.min(done + COPY_PIECE);
        let part = Source {
            sector: from.sector,
            offset: from.offset + done,
            len: COPY_PIECE.min(from.len - done),
        };
        let piece = piece_of(flash, area, part, steps);
        let bytes = &piece[..(end - done) as usize];
        area_program(flash, area, sector, offset + done, bytes)?;
        done = end;
    }
    Ok(())
}
