// The cache of a store: the place of the latest entry of each cache slot's ids.
ghost use Rattle.std.specs.Prelude.{◌≡◌, ◌<◌};
ghost use Rattle.flash_map.specs.Area.{sectors_of};
ghost use Rattle.lookup_cache.specs.Places.{empty_cache};
ghost use Rattle.item_store.specs.OnSector.{IsOpenAt};
ghost use Rattle.item_store.specs.Cached.{IsCacheOf, IsCacheOn, FollowsRound};
ghost use Rattle.item_store.specs.Listed.{format_on};
ghost use Rattle.item_store.specs.Standing.{IsStoreArea};

use crate::entry::Placed;
use crate::notes::Notes;
use crate::noting::note_all;
use crate::open_area::OpenArea;
use crate::sectors::SlotSectors;
use flash_map::Area;
use flash_sim::{Flash, Steps};
use lookup_cache::Cache;
use std::sync::ledger::Ledger;

/// How many slots the cache of a store has.
pub const CACHE_SLOTS: usize = 64;

impl Notes for Cache {
    ghost noted = { λ start limit cache placed. IsCacheOf cache placed };

    fn is_moot(&self, _id: u32, _len: u32) -> bool {
        false
    }

    fn note(&mut self, placed: &Placed) {
        Cache::note(self, placed.id, placed.sector, placed.slot);
    }
}

/// Fills a new cache from the list. It reads each sector that counts once.
pub fn fill<T: SlotSectors, F: Flash, L: Ledger>(
    flash: &F,
    on: &OpenArea<'_, T>,
    cache: &mut Cache,
    steps: &mut Steps<L>,
)
    requires on { IsOpenAt T.role T.format_of T.kept (F.device flash.now) on.now }
    requires empty { cache.old ≡ empty_cache 64 }
    ensures { IsCacheOn T.format_of (F.device flash.now) on.now.area.now cache.new }
{
    note_all(flash, on, cache, steps);
}

/// Updates the cache after a round that opened this sector. It forgets the places in the next
/// sector, the victim, and its top, and notes the entries of the open sector, which stand last. If
/// the round had no victim, the next sector held no entry of the list.
pub fn follow_round<T: SlotSectors, F: Flash, L: Ledger>(
    flash: &F,
    area: &Area,
    newest: u32,
    cache: &mut Cache,
    steps: &mut Steps<L>,
)
    requires area { IsStoreArea T.role (F.device flash.now).banks area.now }
    requires inside { newest < area.now.sectors }

    ensures { let d = F.device flash.now in
        FollowsRound (format_on T.format_of d area.now) (sectors_of d area.now) newest cache.old
        cache.new }
{
    let victim = area.next(newest);
    cache.forget_sector(victim);
    T::note_sector(flash, area, newest, 0, cache, steps);
}
