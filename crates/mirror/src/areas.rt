// The areas of a map, and whether one is all FF.
ghost use Rattle.std.specs.Prelude.{◌≡◌};
ghost use Rattle.flash_map.specs.Area.{IsLawfulArea};
ghost use Rattle.backend_api.specs.Written.{is_blank_on};
ghost use Rattle.mirror.specs.Trusted.{selector_found, selector_place};

use flash_map::{Area, FlashMap, is_erased, sector_view};
use flash_sim::{Flash, Steps};
use migrator::is_store_at;
use std::sync::ledger::Ledger;

// The place of the selector's area, if there is one.
fn selector_found(map: &FlashMap) -> Option<usize>
    ensures { result ≡ selector_found map.now }
{
    let count = map.len();
    (0..count).find(|place| !is_store_at(map, *place))
}

// The place of the selector's area; 0 if there is none.
pub(crate) fn selector_place(map: &FlashMap) -> usize
    ensures { result ≡ selector_place map.now }
{
    selector_found(map).unwrap_or(0)
}

// Whether the bytes of the area are all FF.
pub(crate) fn is_blank<F: Flash, L: Ledger>(flash: &F, area: &Area, steps: &mut Steps<L>) -> bool
    requires { IsLawfulArea (F.device flash.now).banks area.now }
    ensures { result ≡ is_blank_on (F.device flash.now) area.now }
{
    let mut blank = true;
    for sector in 0..area.sectors {
        blank &= is_erased(sector_view(flash, area, sector, steps));
    }
    blank
}
