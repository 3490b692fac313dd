// The mount of a store of settings.
ghost use Rattle.std.specs.Prelude.{◌≡◌, ◌∷◌, [], None, IfOk};
ghost use Rattle.flash_map.specs.Area.{geometry_of};
ghost use Rattle.flash_map.specs.Faults.{mount_lost};
ghost use Rattle.flash_map.specs.Lawful.{IsLawfulFor};
ghost use Rattle.flash_map.specs.Touches.{Touches};
ghost use Rattle.backend_api.specs.Ends.{MountEnds};
ghost use Rattle.backend_api.specs.Room.{foreign_units};
ghost use Rattle.backend_api.specs.Written.{StaysWritten};
ghost use Rattle.flash_map.specs.On.{on, HoldsOn};
ghost use Rattle.named_items.specs.Mounted.{IsMountedOn};
ghost use Rattle.named_items.specs.Pairs.{HasNoOrphans};
ghost use Rattle.named_items.specs.Looking.{HasIds};
ghost use Rattle.named_items.specs.Orphans.{KeepsSettings, RemovalEnds, SpendsBooting};

use crate::numbering::IdLayout;
use crate::orphans::remove_orphans;
use crate::store::ItemStore;
use flash_map::{Area, MountFault};
use flash_sim::{Flash, Steps};
use std::alloc::Global;
use std::sync::ledger::Ledger;

/// Mounts a store, and deletes the items that belong to no setting, in rising order of ids. The
/// settings and each item that is kept stay, even if power is lost; no item is new or has other
/// bytes. Whatever the result, it spends at most the units and erases of `foreign_units` for the
/// area's geometry. If no item is an orphan, it spends at most those that finish what a power loss
/// left (`redo`). If some are, it spends at most those that end a garbage collection, and those of
/// one delete for each. The area is all FF afterwards only if it was so before.
///
/// # Errors
/// `Damaged` exactly if the area shows damage; nothing was programmed then. `PowerLost`: the
/// settings are as before. There is an id below which no orphan is left, and above which every item
/// is as before; the item at that id is as before, or gone. `NoMemory`: nothing was programmed.
#[tactic(auto, using(flash_map::proofs::Touches::then))]
pub fn mount_store<N: IdLayout, S: ItemStore, F: Flash, L: Ledger>(
    alloc: Global,
    flash: &mut F,
    area: Area,
    steps: &mut Steps<L>,
) -> Result<S, MountFault>
    requires ids { HasIds N.top S.is_id }
    requires lawful { IsLawfulFor (F.device flash.old).banks area }
    requires serves { S.serves area (geometry_of (F.device flash.old) area) }

    ensures touches { Touches (area ∷ []) (F.device flash.old) (F.device flash.new)
        (mount_lost result) }
    ensures ends { MountEnds (on S.damage (F.device flash.old) area) (F.device flash.old)
        (F.device flash.new) result }
    ensures sound { on S.damage (F.device flash.old) area ≡ None
        → on S.damage (F.device flash.new) area ≡ None }
    ensures keeps { on S.damage (F.device flash.old) area ≡ None
        → KeepsSettings (N.numbering area) (on S.contents (F.device flash.old) area)
        (on S.contents (F.device flash.new) area) }
    ensures order { on S.damage (F.device flash.old) area ≡ None
        → RemovalEnds (N.numbering area) (on S.contents (F.device flash.old) area)
        (on S.contents (F.device flash.new) area) result }
    ensures rests { HoldsOn S.rests (F.device flash.old) area
        → HasNoOrphans (N.numbering area) (on S.contents (F.device flash.old) area)
        → F.device flash.new ≡ F.device flash.old }
    ensures written { StaysWritten (F.device flash.old) (F.device flash.new) area }
    ensures units { let d = F.device flash.old in let g = geometry_of d area in
        SpendsBooting (N.numbering area) (foreign_units g) (S.redo g) (S.clear g) (S.removal g) d
        (F.device flash.new) (on S.contents d area) }
    ensures store { let e = F.device flash.new in
        IfOk result
        (λ store. IsMountedOn S.mounted_on S.stands S.contents N.numbering e area store) }
{
    match S::mount(alloc, flash, area, steps) {
        Ok(mut store) => match remove_orphans::<N, S, F, L>(&mut store, flash, steps) {
            Ok(()) => Ok(store),
            Err(_) => Err(MountFault::PowerLost),
        },
        Err(fault) => Err(fault),
    }
}
