// Reading items by a table of the last entries of ids.
ghost use Rattle.std.specs.Prelude.{◌≡◌, ◌+◌, ◌<◌, ◌≤◌, None, IfSome, option_map};
ghost use Rattle.std.specs.FinMap as map;
ghost use Rattle.item_store.specs.Latest.{IsKnown, KnowsOn};
ghost use Rattle.item_store.specs.Listed.{format_on, items_on};
ghost use Rattle.item_laws.specs.NextIds.{IsNextId};
ghost use Rattle.item_store.specs.Stands.{StandsOn};

use crate::latest::{LastSlots, fill_last_slots};
use crate::open_area::OpenArea;
use crate::sectors::SlotSectors;
use crate::store::Store;
use flash_sim::{Flash, Steps};
use std::sync::ledger::Ledger;

impl<T: SlotSectors> Store<T> {
    /// Makes a table of the last entries of ids: of 1024 ids at most, the least that have bytes. It
    /// knows each id if at most 1024 ids ever had bytes in the list. It is valid as long as the
    /// area stays as it is. This takes one walk over the list, and a search for each id that shares
    /// its key.
    pub fn fill_last_slots<F: Flash, L: Ledger>(
        &self,
        flash: &F,
        last: &mut LastSlots,
        steps: &mut Steps<L>,
    )
        requires { StandsOn T.role T.format_of T.kept (F.device flash.now) self.now }
        ensures { KnowsOn T.format_of (F.device flash.now) self.now.area last.new }
    {
        let tops = self.cache.tops();
        let on = OpenArea {
            area: &self.area,
            current: self.current,
            opened: self.opened,
            tops,
        };
        fill_last_slots(flash, &on, last, steps)
    }

    /// The bytes of an item, as `get` gives them. If the table knows the id, this takes at most one
    /// step; otherwise it does what `get` does.
    pub fn get_by<'a, F: Flash, L: Ledger>(
        &self,
        flash: &'a F,
        last: &LastSlots,
        id: u32,
        steps: &mut Steps<L>,
    ) -> Option<&'a [u8]>
        requires stands { StandsOn T.role T.format_of T.kept (F.device flash.now) self.now }
        requires last { KnowsOn T.format_of (F.device flash.now) self.now.area last.now }
        ensures value { option_map (λ bytes. bytes.now) result
            ≡ map.get (items_on T.format_of (F.device flash.now) self.now.area) id }
        ensures few { IsKnown last.now.bound id → steps.new ≤ steps.old + 1 }
    {
        if !last.knows_of(id) {
            return self.get(flash, id, steps);
        }
        match last.entry_of(id) {
            Some(placed) => self.bytes_at(flash, &placed, steps),
            None => None,
        }
    }

    /// The least id greater than `after` that has a value, or the least of all, as `next_id` gives
    /// it. If the table knows that id, or knows each id, this takes no step; otherwise it searches
    /// the list.
    pub fn next_by<F: Flash, L: Ledger>(
        &self,
        flash: &F,
        last: &LastSlots,
        after: Option<u32>,
        steps: &mut Steps<L>,
    ) -> Option<u32>
        requires stands { StandsOn T.role T.format_of T.kept (F.device flash.now) self.now }
        requires last { KnowsOn T.format_of (F.device flash.now) self.now.area last.now }
        ensures next { IsNextId (items_on T.format_of (F.device flash.now) self.now.area) after
            result }
        ensures known { let d = F.device flash.now in
            IfSome result (λ id. id < (format_on T.format_of d self.now.area).ids) }
        ensures covered { IfSome result (λ id. IsKnown last.now.bound id → steps.new ≡ steps.old) }
        ensures all { last.now.bound ≡ None → steps.new ≡ steps.old }
    {
        match last.next(after) {
            Some(placed) => Some(placed.id),
            None => {
                if last.knows_all() {
                    return None;
                }
                self.next_id(flash, after, steps)
            }
        }
    }
}
