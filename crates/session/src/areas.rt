// The place of the selector's area.
ghost use Rattle.std.specs.Prelude.{◌≡◌};
ghost use Rattle.session.specs.OnMap.{selector_found};

use flash_map::FlashMap;
use migrator::is_store_at;

// The place of the selector's area, if there is one.
pub(crate) fn selector_place(map: &FlashMap) -> Option<usize>
    ensures { result ≡ selector_found map.now }
{
    let count = map.len();
    (0..count).find(|place| !is_store_at(map, *place))
}
