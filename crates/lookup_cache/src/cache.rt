// A cache as the list of its slots, and the greatest slots that were noted in sectors.
ghost use Rattle.std.specs.Prelude.{◌≡◌, ◌≤◌, ◌<◌, ℕ, Option, None, map, replicate, length, IfOk};
ghost use Rattle.lookup_cache.specs.Places.{without_sector, higher};

use flash_sim::NoMemory;
use std::alloc::Global;
use std::marker::Model;

// How many sectors have a top.
const TOPS: usize = 64;

/// For each cache slot, the sector and the slot where an entry was put, or nothing. Ids that leave
/// the same remainder by the number of cache slots share a cache slot.
#[derive(Drop)]
pub struct Cache {
    places: Vec<Option<(u32, u32)>>,
    // for each of the first sectors, the greatest slot that was noted in it since it was last
    // forgotten; 0 if there is none
    tops: [u16; TOPS],
}

impl Model for Cache {
    ghost use Rattle.std.specs.Prelude.{◌≤◌, length};
    ghost use Rattle.lookup_cache.specs.Places.{CacheState};

    ghost Value = { CacheState };

    ghost view = { λ cache. record { places = cache.places.items; tops = cache.tops } };

    ghost invariant = { λ cache. 1 ≤ length cache.places.items };
}

impl Cache {
    ghost use Rattle.lookup_cache.specs.Places.{place_of, empty_cache, note_entry, forget_entries};

    /// A cache of `n` empty slots.
    ///
    /// # Errors
    /// `NoMemory` if memory runs out.
    pub fn with_slots(alloc: Global, n: usize) -> Result<Cache, NoMemory>
        requires { 1 ≤ n }
        ensures { IfOk result (λ cache. cache ≡ empty_cache n) }
    {
        let places = vec![in alloc; None; n].map_err(|_| NoMemory)?;
        Ok(Cache {
            places,
            tops: [0; TOPS],
        })
    }

    /// Notes that the latest entry of the id is in this slot of the sector. It raises the sector's
    /// top to the slot.
    pub fn note(&mut self, id: u32, sector: u32, slot: u32)
        ensures { self.new ≡ note_entry self.old id sector slot }
    {
        let index = id as usize % self.places.len();
        self.places[index] = Some((sector, slot));
        let place = sector as usize;
        if place < TOPS {
            self.tops[place] = higher(self.tops[place], slot);
        }
    }

    /// The sector and the slot that were noted last for the id's cache slot, unless it was cleared
    /// since.
    pub fn start_of(&self, id: u32) -> Option<(u32, u32)>
        ensures { result ≡ place_of self.now.places id }
    {
        self.places[id as usize % self.places.len()]
    }

    /// For each of the first 64 sectors, the greatest slot that was noted in it since it was last
    /// forgotten; 0 if there is none.
    pub fn tops(&self) -> &[u16]
        ensures { result.now ≡ self.now.tops }
    {
        &self.tops
    }

    /// Clears each cache slot that points into the sector, and the sector's top.
    pub fn forget_sector(&mut self, sector: u32)
        ensures { self.new ≡ forget_entries self.old sector }
    {
        let at = sector as usize;
        if at < TOPS {
            self.tops[at] = 0;
        }
        for place in self.places.iter_mut() {
            *place = outside(*place, sector);
        }
    }
}

// The place, unless it lies in the sector.
fn outside(place: Option<(u32, u32)>, sector: u32) -> Option<(u32, u32)>
    ensures { result ≡ without_sector sector place }
{
    place.filter(|place| place.0 != sector)
}

// The slot, if it is greater than the top so far and has 16 bits; else that top.
fn higher(top: u16, slot: u32) -> u16
    ensures { result ≡ higher top slot }
{
    if u32::from(top) < slot && slot < 0x1_0000 {
        slot as u16
    } else {
        top
    }
}
