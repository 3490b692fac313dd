// Compaction: a walk over the list keeps a table of the live records.
ghost use Rattle.std.specs.Prelude.{◌≡◌, ◌<◌, ℕ, List, ◌++◌, [], length, All, Bool, Some, true, IfSome};
ghost use Rattle.std.specs.List.{AllPass};
ghost use Rattle.std.specs.Option.{ForSome};
ghost use Rattle.flash_map.specs.Area.{value_limit};
ghost use Rattle.fcb_ring.specs.Changing.{body_at};
ghost use Rattle.fcb_ring.specs.Standing.{StandsOn as RingStandsOn, IsListed};
ghost use Rattle.record_settings.specs.Live.{has_name};
ghost use Rattle.record_settings.specs.Settings.{setting_of, body_of};
ghost use Rattle.fcb_ring.specs.declared.record.RecordAt.{RecordAt as Place};
ghost use Rattle.backend_fcb.specs.Compaction.{mark, is_within, if_within, is_kept_of, without_first, without_place, AreKeptWithin, IsKept, struck, noted, noted_by, PassesFrom, StrikesFrom, FindsLiveFrom};
ghost use Rattle.backend_fcb.specs.declared.compaction.Kept.{Kept as KeptOf};

use crate::record::setting_in;
use arrayvec::ArrayVec;
use fcb_ring::{RecordAt, Ring};
use flash_sim::{Flash, Steps};
use std::sync::ledger::Ledger;

// The most records that one walk keeps.
const TABLE: usize = 64;

// A record that is kept, and the mark of its name, by which most names differ.
#[derive(Clone, Copy, Drop)]
pub(crate) struct Kept {
    pub(crate) at: RecordAt,
    pub(crate) mark: u32,
}

impl Default for Kept {
    fn default() -> Kept {
        let at = RecordAt {
            sector: 0,
            offset: 0,
            body: 0,
            len: 0,
        };
        Kept { at, mark: 0 }
    }
}

pub(crate) type Table = ArrayVec<Kept, TABLE>;

// The mark of a name.
fn mark_of(name: &[u8]) -> u32
    ensures { result ≡ mark name.now }
{
    let mut mark = 0;
    for byte in name {
        mark = (mark * 31 + u32::from(*byte)) % 65536;
    }
    mark
}

// Whether a record is of the part: of this sector, or of any.
fn is_within(part: Option<u32>, at: &RecordAt) -> bool
    ensures { result ≡ is_within part at.now }
{
    match part {
        Some(sector) => at.sector == sector,
        None => true,
    }
}

// The record, if it is of the part.
fn if_within(part: Option<u32>, at: Option<RecordAt>) -> Option<RecordAt>
    ensures { result ≡ if_within part at }
{
    match at {
        Some(entry) if is_within(part, &entry) => at,
        _ => None,
    }
}

// Whether a body is a setting of this name.
fn is_of(ring: &Ring, body: &[u8], name: &[u8]) -> bool
    ensures { result ≡ has_name name.now (setting_of (value_limit ring.now.area) body.now) }
{
    match setting_in(ring, body) {
        Some(setting) => setting.name == name,
        None => false,
    }
}

// The name and `=` of this body, with which each record of its name begins.
fn prefix_of<'a>(body: &'a [u8], name: &[u8]) -> &'a [u8]
    requires { (value : List ℕ) × (body.now ≡ body_of name.now value) }
    ensures { result.now ≡ body_of name.now [] }
{
    &body[..name.len() + 1]
}

// Whether a record that is kept is of the name.
fn is_kept_of<F: Flash, L: Ledger>(
    ring: &Ring,
    flash: &F,
    kept: &Kept,
    name: &[u8],
    prefix: &[u8],
    steps: &mut Steps<L>,
) -> bool
    requires stands { RingStandsOn (F.device flash.now) ring.now }
    requires listed { IsListed (F.device flash.now) ring.now.area kept.now.at }
    requires prefix { prefix.now ≡ body_of name.now [] }
    ensures { result ≡ is_kept_of (F.device flash.now) ring.now.area name.now kept.now }
{
    let body = ring.body(flash, &kept.at, steps);
    body.starts_with(prefix) && is_of(ring, body, name)
}

// Where in the table the first record of the name is.
fn place_of<F: Flash, L: Ledger>(
    ring: &Ring,
    flash: &F,
    table: &[Kept],
    name: &[u8],
    prefix: &[u8],
    steps: &mut Steps<L>,
) -> Option<usize>
    requires stands { RingStandsOn (F.device flash.now) ring.now }
    requires kept { All (IsKept (F.device flash.now) ring.now.area) table.now }
    requires prefix { prefix.now ≡ body_of name.now [] }
    ensures place { let is_of = is_kept_of (F.device flash.now) ring.now.area name.now in
        without_place table.now result ≡ without_first is_of table.now }
    ensures within { IfSome result (λ place. place < length table.now) }
{
    let mark = mark_of(name);
    for place in 0..table.len() {
        let kept = table[place];
        if kept.mark == mark && is_kept_of(ring, flash, &kept, name, prefix, steps) {
            return Some(place);
        }
    }
    None
}

// Takes the record of the name out of the table, if it has one.
fn strike_name<F: Flash, L: Ledger>(
    ring: &Ring,
    flash: &F,
    table: &mut Table,
    name: &[u8],
    prefix: &[u8],
    steps: &mut Steps<L>,
)
    requires stands { RingStandsOn (F.device flash.now) ring.now }
    requires kept { All (IsKept (F.device flash.now) ring.now.area) table.old.items }
    requires prefix { prefix.now ≡ body_of name.now [] }
    ensures { table.new.items
        ≡ without_first (is_kept_of (F.device flash.now) ring.now.area name.now) table.old.items }
{
    let place = place_of(ring, flash, table.as_slice(), name, prefix, steps);
    if let Some(place) = place {
        table.remove(place);
    }
}

// Takes the record out of the table that has the name of a later one.
fn strike<F: Flash, L: Ledger>(
    ring: &Ring,
    flash: &F,
    table: &mut Table,
    later: RecordAt,
    steps: &mut Steps<L>,
)
    requires stands { RingStandsOn (F.device flash.now) ring.now }
    requires kept { All (IsKept (F.device flash.now) ring.now.area) table.old.items }
    requires listed { IsListed (F.device flash.now) ring.now.area later }
    ensures { let d = F.device flash.now in
        table.new.items ≡ struck d ring.now.area (body_at d ring.now.area later) table.old.items }
{
    let body = ring.body(flash, &later, steps);
    match setting_in(ring, body) {
        Some(setting) => {
            let prefix = prefix_of(body, setting.name);
            strike_name(ring, flash, table, setting.name, prefix, steps);
        }
        None => {}
    }
}

// Puts a record into the table, if it has a value.
fn note(table: &mut Table, at: RecordAt, name: &[u8], value: &[u8])
    requires { length table.old.items < TABLE }
    ensures { table.new.items ≡ table.old.items ++ noted_by at (Some (name.now, value.now)) }
{
    if !value.is_empty() {
        let mark = mark_of(name);
        table.push(Kept { at, mark });
    }
}

// Puts a record into the table in place of the one that has its name, if it has a value.
fn replace<F: Flash, L: Ledger>(
    ring: &Ring,
    flash: &F,
    table: &mut Table,
    at: RecordAt,
    steps: &mut Steps<L>,
)
    requires stands { RingStandsOn (F.device flash.now) ring.now }
    requires kept { All (IsKept (F.device flash.now) ring.now.area) table.old.items }
    requires listed { IsListed (F.device flash.now) ring.now.area at }
    requires room { length table.old.items < TABLE }
    ensures { let d = F.device flash.now in
        table.new.items
        ≡ struck d ring.now.area (body_at d ring.now.area at) table.old.items
        ++ noted d ring.now.area at }
{
    let body = ring.body(flash, &at, steps);
    match setting_in(ring, body) {
        Some(setting) => {
            let prefix = prefix_of(body, setting.name);
            strike_name(ring, flash, table, setting.name, prefix, steps);
            note(table, at, setting.name, setting.value);
        }
        None => {}
    }
}

// Keeps the records of the part that are live among those passed, until the table is full. Returns
// the record at which it stops.
fn find_live_in<F: Flash, L: Ledger>(
    ring: &Ring,
    flash: &F,
    table: &mut Table,
    from: Option<RecordAt>,
    part: Option<u32>,
    steps: &mut Steps<L>,
) -> Option<RecordAt>
    requires stands { RingStandsOn (F.device flash.now) ring.now }
    requires empty { table.old.items ≡ [] }
    requires from { ForSome from (IsListed (F.device flash.now) ring.now.area) }
    ensures kept { All (IsKept (F.device flash.now) ring.now.area) table.new.items }
    ensures within { AreKeptWithin part table.new.items }
    ensures passes { PassesFrom (F.device flash.now) ring.now.area part from table.new.items
        result }
    ensures listed { ForSome result (IsListed (F.device flash.now) ring.now.area) }
    ensures full { (r : Place) → result ≡ Some r → is_within part r ≡ true
        → length table.new.items ≡ TABLE }
{
    let mut at = from;
    while let Some(entry) = at {
        if table.is_full() || !is_within(part, &entry) {
            return at;
        }
        replace(ring, flash, table, entry, steps);
        at = ring.next(flash, Some(entry), steps);
    }
    None
}

// Takes the records out of the table whose name a record from a place on has.
fn strike_from<F: Flash, L: Ledger>(
    ring: &Ring,
    flash: &F,
    table: &mut Table,
    from: Option<RecordAt>,
    steps: &mut Steps<L>,
)
    requires stands { RingStandsOn (F.device flash.now) ring.now }
    requires kept { All (IsKept (F.device flash.now) ring.now.area) table.old.items }
    requires from { ForSome from (IsListed (F.device flash.now) ring.now.area) }
    ensures kept { All (IsKept (F.device flash.now) ring.now.area) table.new.items }
    ensures some { (test : KeptOf → Bool) → AllPass test table.old.items
        → AllPass test table.new.items }
    ensures strikes { StrikesFrom (F.device flash.now) ring.now.area from table.old.items
        table.new.items }
{
    let mut at = from;
    while let Some(later) = at {
        strike(ring, flash, table, later, steps);
        at = ring.next(flash, Some(later), steps);
    }
}

// Finds the live records of the part from a place on, at most as many as a table holds, by one walk
// over the list. Returns the record from which to go on.
pub(crate) fn find_live<F: Flash, L: Ledger>(
    ring: &Ring,
    flash: &F,
    table: &mut Table,
    from: Option<RecordAt>,
    part: Option<u32>,
    steps: &mut Steps<L>,
) -> Option<RecordAt>
    requires stands { RingStandsOn (F.device flash.now) ring.now }
    requires from { ForSome from (IsListed (F.device flash.now) ring.now.area) }
    ensures kept { All (IsKept (F.device flash.now) ring.now.area) table.new.items }
    ensures within { AreKeptWithin part table.new.items }
    ensures finds_live { FindsLiveFrom (F.device flash.now) ring.now.area part from table.new.items
        result }
    ensures listed { ForSome result (IsListed (F.device flash.now) ring.now.area) }
{
    table.clear();
    let next = find_live_in(ring, flash, table, from, part, steps);
    strike_from(ring, flash, table, next, steps);
    if_within(part, next)
}
