// The ring of the sectors, by the state of each.
ghost use Rattle.std.specs.Prelude.{◌≡◌, ℕ, ◌+◌, ◌-◌, ◌<◌, ◌≤◌, true, false, length, find, is_some, IfSome};
ghost use Rattle.std.specs.List.{range_with_len};
ghost use Rattle.fcb_ring.specs.Rings.{state_at, before, turned, distance, continues, opens_run, oldest_place, second_start, is_full, counts, shows, first_of, first_damage};

use crate::sector::SectorState;
use flash_map::{Damaged, Why};

// The place before, round the end.
fn before(count: usize, place: usize) -> usize
    requires { place < count }
    ensures value { result ≡ before count place }
    ensures within { result < count }
{
    if place == 0 { count - 1 } else { place - 1 }
}

// So many places further on, round the end.
#[tactic(auto, unfolding(crate::specs::Rings::turned))]
pub(crate) fn turned(count: usize, place: usize, further: usize) -> usize
    requires place { place < count }
    requires further { further ≤ count }
    requires few { count ≤ 64 }
    ensures value { result ≡ turned count place further }
    ensures within { result < count }
{
    if place + further < count {
        place + further
    } else {
        place + further - count
    }
}

// How far a place is from another, going round.
#[tactic(auto, unfolding(crate::specs::Rings::distance))]
pub(crate) fn distance(count: usize, from: usize, place: usize) -> usize
    requires from { from < count }
    requires place { place < count }
    requires few { count ≤ 64 }
    ensures value { result ≡ distance count from place }
    ensures within { result < count }
{
    if place < from {
        place + count - from
    } else {
        place - from
    }
}

// Whether the sector's id is one more than that of the used sector before it.
fn continues(states: &[SectorState], place: usize) -> bool
    requires { place < length states.now }
    ensures { result ≡ continues states.now place }
{
    let previous = states[before(states.len(), place)];
    !previous.is_free && states[place].id == previous.id.wrapping_add(1)
}

fn opens_run(states: &[SectorState], place: usize) -> bool
    requires { place < length states.now }
    ensures { result ≡ opens_run states.now place }
{
    !states[place].is_free && !continues(states, place)
}

// The first place from there on that does not continue the one before it.
fn run_from(states: &[SectorState], from: usize) -> Option<usize>
    requires { from ≤ length states.now }
    ensures value { result
        ≡ find (opens_run states.now) (range_with_len from (length states.now - from)) }
    ensures within { IfSome result (λ place. place < length states.now) }
{
    for place in from..states.len() {
        if opens_run(states, place) {
            return Some(place);
        }
    }
    None
}

// The oldest of the used sectors.
#[tactic(auto, unfolding(crate::specs::Rings::oldest_place))]
pub(crate) fn oldest_place(states: &[SectorState]) -> usize
    requires { 0 < length states.now }
    ensures value { result ≡ oldest_place states.now }
    ensures within { result < length states.now }
{
    run_from(states, 0).unwrap_or(0)
}

// Whether a second sector does not continue the one before it.
#[tactic(auto, unfolding(crate::specs::Rings::second_start))]
fn has_second_start(states: &[SectorState]) -> bool
    requires { 0 < length states.now }
    ensures { result ≡ is_some (second_start states.now) }
{
    run_from(states, oldest_place(states) + 1).is_some()
}

// Whether no sector is free.
pub(crate) fn is_full(states: &[SectorState]) -> bool
    ensures { result ≡ is_full states.now }
{
    states.iter().all(|state| !state.is_free)
}

// The sectors that count: the used ones, but not the newest if no sector is free.
#[tactic(auto, unfolding(crate::specs::Rings::counts))]
fn counts(states: &[SectorState], place: usize) -> bool
    requires { place < length states.now }
    ensures { result ≡ counts states.now place }
{
    let newest = before(states.len(), oldest_place(states));
    !states[place].is_free && !(is_full(states) && place == newest)
}

// Whether the sector shows this kind of damage.
fn shows(why: Why, states: &[SectorState], place: usize) -> bool
    requires { place < length states.now }
    ensures { result ≡ shows why states.now place }
{
    match why {
        Why::BadHeader => !states[place].is_free && !states[place].has_header,
        Why::Overfull => counts(states, place) && states[place].is_overfull,
        Why::Dirty => counts(states, place) && states[place].is_dirty,
        _ => false,
    }
}

// The lowest sector that shows it.
fn first_of(why: Why, states: &[SectorState]) -> Option<Damaged>
    requires { length states.now ≤ 64 }
    ensures { result ≡ first_of why states.now }
{
    for place in 0..states.len() {
        if shows(why, states, place) {
            return Some(Damaged {
                sector: place as u32,
                why,
            });
        }
    }
    None
}

// The first kind of damage, at the lowest sector that shows it.
#[tactic(auto, unfolding(crate::specs::Rings::first_damage))]
pub(crate) fn first_damage(states: &[SectorState]) -> Option<Damaged>
    requires some { 0 < length states.now }
    requires few { length states.now ≤ 64 }
    ensures { result ≡ first_damage states.now }
{
    if let Some(damaged) = first_of(Why::BadHeader, states) {
        return Some(damaged);
    }
    if has_second_start(states) {
        return Some(Damaged {
            sector: 0,
            why: Why::BadSequence,
        });
    }
    if let Some(damaged) = first_of(Why::Overfull, states) {
        return Some(damaged);
    }
    first_of(Why::Dirty, states)
}

// How many sectors are used from the oldest on, up to the first that is free.
pub(crate) fn used_from(states: &[SectorState], oldest: usize) -> usize
    requires oldest { oldest < length states.now }
    requires few { length states.now ≤ 64 }
    ensures at_most { result ≤ length states.now }
    ensures used { (k : ℕ) → k < result
        → (state_at states.now (turned (length states.now) oldest k)).is_free ≡ false }
    ensures free { result < length states.now
        → (state_at states.now (turned (length states.now) oldest result)).is_free ≡ true }
{
    for used in 0..states.len() {
        if states[turned(states.len(), oldest, used)].is_free {
            return used;
        }
    }
    states.len()
}
