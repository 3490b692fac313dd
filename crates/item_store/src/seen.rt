// Which ids the entries behind a place of the list have.
ghost use Rattle.std.specs.Prelude.{◌≡◌, ◌^◌, ◌<◌, ◌||◌, ◌==◌, ℕ, [], not, nat_lt, IsTrue};
ghost use Rattle.flash_map.specs.Area.{sectors_of};
ghost use Rattle.item_store.specs.OnSector.{IsKeptAt};
ghost use Rattle.item_store.specs.Listed.{format_on};
ghost use Rattle.item_store.specs.Seen.{key_of, usual_id, has_bit, HasSeen, IsExact, behind};

use crate::bits::{has_bit, set_bit};
use crate::entry::Placed;
use crate::notes::Notes;
use crate::noting::note_among;
use crate::open_area::OpenArea;
use crate::sectors::SlotSectors;
use flash_sim::{Flash, Steps};
use std::sync::ledger::Ledger;

// A bit for each key of ids.
const BYTES: usize = 0x2000;

// The key of an id, a number of 16 bits.
#[tactic(auto, unfolding(crate::specs::Seen::key_of))]
fn key_of(id: u32) -> u32
    ensures key { result ≡ key_of id }
    ensures below { result < 2 ^ 16 }
{
    if id < 0x8000_0000 {
        id % 0x1_0000
    } else {
        id / 0x4000_0000 % 2 * 0x8000 + id % 0x1_0000 / 0x10 * 8 + id % 8
    }
}

// The usual id of a key: it has bit 31 and the bits of the key, and no others.
#[tactic(auto, unfolding(crate::specs::Seen::usual_id))]
fn usual_id(key: u32) -> u32
    requires { key < 2 ^ 16 }
    ensures { result ≡ usual_id key }
{
    0x8000_0000 + key / 0x8000 * 0x4000_0000 + key % 0x8000 / 8 * 0x10 + key % 8
}

/// Which keys the ids of some entries have.
#[derive(Drop)]
pub struct Seen {
    pub(crate) bits: [u8; BYTES],
    // some id is not the usual one of its key
    pub(crate) mixed: bool,
    // some id has more than 16 bits
    pub(crate) long: bool,
}

impl Seen {
    /// No id was seen yet.
    pub fn new() -> Seen
        ensures { (limit : ℕ) → HasSeen limit result [] }
    {
        Seen {
            bits: [0; BYTES],
            mixed: false,
            long: false,
        }
    }

    /// Whether an id of the same key was noted.
    pub fn has(&self, id: u32) -> bool
        ensures { result ≡ has_bit self.now.bits (key_of id) }
    {
        has_bit(&self.bits, key_of(id))
    }

    /// `true` only if this id and each noted one are the usual ids of their keys, or all of them
    /// have 16 bits. Then a noted id with the key of this id is this id.
    pub fn is_exact(&self, id: u32) -> bool
        ensures { IsTrue result → IsExact self.now id }
    {
        if !self.long && id < 0x1_0000 {
            return true;
        }
        !self.mixed && id == usual_id(key_of(id))
    }

    /// Adds an id.
    pub fn add(&mut self, id: u32)
        ensures bits { (key : ℕ) → key < 2 ^ 16
            → has_bit self.new.bits key ≡ (has_bit self.old.bits key || (key_of id == key)) }
        ensures mixed { self.new.mixed ≡ (self.old.mixed || not (id == usual_id (key_of id))) }
        ensures long { self.new.long ≡ (self.old.long || not (nat_lt id 0x1_0000)) }
    {
        let key = key_of(id);
        set_bit(&mut self.bits, key);
        self.mixed = self.mixed || id != usual_id(key);
        self.long = self.long || id >= 0x1_0000;
    }
}

impl Notes for Seen {
    ghost noted = { λ start limit seen placed. HasSeen limit seen placed };

    fn is_moot(&self, _id: u32, _len: u32) -> bool {
        false
    }

    fn note(&mut self, placed: &Placed) {
        self.add(placed.id);
    }
}

/// Adds the ids of the entries in the sectors behind a place, in the round to the open one. It
/// reads each sector once.
pub fn note_behind<T: SlotSectors, F: Flash, L: Ledger>(
    flash: &F,
    on: &OpenArea<'_, T>,
    place: u32,
    seen: &mut Seen,
    steps: &mut Steps<L>,
)
    requires on { IsKeptAt T.role T.format_of T.kept (F.device flash.now) on.now }
    requires inside { place < on.now.area.now.sectors }
    ensures { let d = F.device flash.now in let area = on.now.area.now in
        let k = format_on T.format_of d area in
        HasSeen k.ids seen.old []
        → HasSeen k.ids seen.new (behind k (sectors_of d area) on.now.current place) }
{
    let after = place + 1;
    if place <= on.current {
        note_among(flash, on, after, on.current + 1, seen, steps);
        return;
    }
    note_among(flash, on, after, on.area.sectors, seen, steps);
    note_among(flash, on, 0, on.current + 1, seen, steps);
}
