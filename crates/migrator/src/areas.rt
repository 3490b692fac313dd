// The store areas of a map.
ghost use Rattle.std.specs.Prelude.{◌≡◌, ◌≢◌, ◌+◌, ◌-◌, ◌<◌, ◌≤◌, ℕ, true, length, IfSome, Some, None};
ghost use Rattle.std.specs.List.{slice_get};
ghost use Rattle.migrator.specs.Areas.{stores, is_store_at, first_store, store_from, target};

use flash_map::{Area, FlashMap, Role};

fn stores(role: Role) -> bool
    ensures { result ≡ stores role }
{
    match role {
        Role::Nvs | Role::Zms | Role::Fcb => true,
        Role::Sel => false,
    }
}

/// Whether the area at this index stores settings. It does not if there is no such area.
pub fn is_store_at(map: &FlashMap, index: usize) -> bool
    ensures { result ≡ is_store_at map.now index }
{
    match map.at(index) {
        Some(area) => stores(area.role),
        None => false,
    }
}

// The first store area from index `from` up to `end`.
fn store_from(map: &FlashMap, from: usize, end: usize) -> Option<usize>
    requires { from ≤ end }
    ensures { result ≡ store_from map.now from (end - from) }
{
    (from..end).find(|index| is_store_at(map, *index))
}

/// The index of the first store area in the order of the map; 0 if there is none.
pub fn first_store(map: &FlashMap) -> usize
    ensures { result ≡ first_store map.now }
{
    store_from(map, 0, map.len()).unwrap_or(0)
}

/// The index of the next store area after this one in the order of the map, round its end; `None`
/// exactly if there is no other.
pub fn target(map: &FlashMap, active: usize) -> Option<usize>
    requires { active < length map.now }
    ensures target { result ≡ target map.now active }
    ensures store { IfSome result (λ index. is_store_at map.now index ≡ true) }
    ensures other { IfSome result (λ index. index ≢ active) }
    ensures none { result ≡ None → (index : ℕ) → is_store_at map.now index ≡ true → index ≡ active }
{
    let count = map.len();
    match store_from(map, active + 1, count) {
        Some(index) => Some(index),
        None => store_from(map, 0, active),
    }
}

/// A copy of the area at this index.
pub fn area_at(map: &FlashMap, index: usize) -> Area
    requires { index < length map.now }
    ensures { slice_get map.now index ≡ Some result }
{
    match map.at(index) {
        Some(area) => *area,
        None => unreachable!(),
    }
}
