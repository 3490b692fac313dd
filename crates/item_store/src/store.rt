// The state of a store.
use flash_map::Area;
use lookup_cache::Cache;

/// A store over the sectors of one area.
#[derive(Drop)]
pub struct Store<T> {
    pub(crate) area: Area,
    // the open sector
    pub(crate) current: u32,
    // what is kept of it
    pub(crate) opened: T,
    // where the latest entry of each cache slot's ids stands, and the tops of the first sectors
    pub(crate) cache: Cache,
    // no call has returned `PowerLost`
    pub(crate) up: bool,
}
