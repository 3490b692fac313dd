// Programming in several calls.
ghost use Rattle.std.specs.Prelude.{◌≡◌, ◌+◌, ◌-◌, ◌/◌, ◌≤◌, ◌++◌, length, replicate, ◌∷◌, [], is_err, OnOk, OnErr};
ghost use Rattle.flash_map.specs.Area.{IsLawfulArea, unit_of, Writes, WritesPart};
ghost use Rattle.flash_map.specs.Pieces.{CanProgramAll, LosesWithin};
ghost use Rattle.flash_map.specs.declared.pieces.TheConstants.{PIECE};
ghost use Rattle.flash_map.specs.Spending.{Spends, SpendsAtMost};
ghost use Rattle.flash_map.specs.Touches.{Touches};
ghost use Rattle.flash_map.specs.Units.{padded, padded_bytes};

use crate::{Area, area_program, geometry};
use flash_sim::{Flash, PowerLost};

/// The most bytes that `program_all` and `program_padded` program in one call. Every unit divides
/// it.
pub const PIECE: usize = 400;

// The bytes of the greatest unit.
const UNIT: usize = 16;

/// Programs any number of whole units of one sector, upward, in calls of at most `PIECE` bytes.
///
/// # Errors
/// `PowerLost` if power was off: nothing changed. Or if it was lost in the call: fewer than all
/// units are programmed, the lowest first.
#[tactic(auto, using(crate::proofs::Touches::then))]
pub fn program_all<F: Flash>(
    flash: &mut F,
    area: &Area,
    sector: u32,
    offset: u32,
    bytes: &[u8],
) -> Result<(), PowerLost>
    requires lawful { IsLawfulArea (F.device flash.old).banks area.now }
    requires can { CanProgramAll (F.device flash.old) area.now sector offset bytes.now }

    ensures touches { Touches (area.now ∷ []) (F.device flash.old) (F.device flash.new)
        (is_err result) }
    ensures ok { OnOk result
        (Writes (F.device flash.old) (F.device flash.new) area.now sector offset bytes.now) }
    ensures spent { OnOk result
        (Spends (F.device flash.old) (F.device flash.new)
        (length bytes.now / unit_of (F.device flash.old) area.now)) }

    ensures lost { OnErr result
        (WritesPart (F.device flash.old) (F.device flash.new) area.now sector offset bytes.now) }
    ensures in_pieces { OnErr result (LosesWithin PIECE (F.device flash.old) (F.device flash.new)) }
    ensures spent_at_most { OnErr result
        (SpendsAtMost (F.device flash.old) (F.device flash.new)
        (length bytes.now / unit_of (F.device flash.old) area.now)) }
{
    let mut done = 0;
    while done < bytes.len() {
        let end = bytes.len().min(done + PIECE);
        area_program(flash, area, sector, offset + done as u32, &bytes[done..end])?;
        done = end;
    }
    Ok(())
}

// The bytes with FF behind them.
fn last_unit(bytes: &[u8]) -> [u8; UNIT]
    requires { length bytes.now ≤ 16 }
    ensures { result ≡ bytes.now ++ replicate (16 - length bytes.now) 0xFF }
{
    let mut unit = [0xFF; UNIT];
    unit[..bytes.len()].copy_from_slice(bytes);
    unit
}

/// Programs any number of bytes of one sector, with FF behind them up to whole units. It programs
/// upward, in calls of at most `PIECE` bytes.
///
/// # Errors
/// `PowerLost` if power was off: nothing changed. Or if it was lost in the call: fewer than all
/// units are programmed, the lowest first.
pub fn program_padded<F: Flash>(
    flash: &mut F,
    area: &Area,
    sector: u32,
    offset: u32,
    bytes: &[u8],
) -> Result<(), PowerLost>
    requires lawful { IsLawfulArea (F.device flash.old).banks area.now }
    requires can { CanProgramAll (F.device flash.old) area.now sector offset
        (padded_bytes (unit_of (F.device flash.old) area.now) bytes.now) }

    ensures touches { Touches (area.now ∷ []) (F.device flash.old) (F.device flash.new)
        (is_err result) }
    ensures ok { OnOk result
        (Writes (F.device flash.old) (F.device flash.new) area.now sector offset
        (padded_bytes (unit_of (F.device flash.old) area.now) bytes.now)) }
    ensures spent { let unit = unit_of (F.device flash.old) area.now in
        OnOk result
        (Spends (F.device flash.old) (F.device flash.new) (padded unit (length bytes.now) / unit)) }

    ensures lost { OnErr result
        (WritesPart (F.device flash.old) (F.device flash.new) area.now sector offset
        (padded_bytes (unit_of (F.device flash.old) area.now) bytes.now)) }
    ensures in_pieces { OnErr result (LosesWithin PIECE (F.device flash.old) (F.device flash.new)) }
    ensures spent_at_most { let unit = unit_of (F.device flash.old) area.now in
        OnErr result
        (SpendsAtMost (F.device flash.old) (F.device flash.new)
        (padded unit (length bytes.now) / unit)) }
{
    let unit = geometry(flash, area).unit as usize;
    let whole = bytes.len() / unit * unit;
    program_all(flash, area, sector, offset, &bytes[..whole])?;
    if whole == bytes.len() {
        return Ok(());
    }
    let last = last_unit(&bytes[whole..]);
    area_program(flash, area, sector, offset + whole as u32, &last[..unit])
}
