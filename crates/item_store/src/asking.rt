// The next item in the order of bytes.
ghost use Rattle.std.specs.Prelude.{◌≡◌, ◌+◌, ◌*◌, ◌<◌, ◌≤◌, ◌&&◌, option_map};
ghost use Rattle.item_laws.specs.Bytes.{is_behind, IsNextOf};
ghost use Rattle.item_laws.specs.Items.{value_of};
ghost use Rattle.item_laws.specs.Live.{bytes_of};
ghost use Rattle.flash_map.specs.Area.{sectors_of};
ghost use Rattle.item_store.specs.Asking.{is_below, lesser_of};
ghost use Rattle.item_store.specs.Lasts.{slots_in_all};
ghost use Rattle.item_store.specs.declared.lasts.TheConstants.{MOST_IDS};
ghost use Rattle.item_store.specs.SectorFormat.{slots};
ghost use Rattle.item_store.specs.Listed.{format_on, items_on, IsPlacedOn};
ghost use Rattle.item_store.specs.Stands.{StandsOn};

use crate::entry::Placed;
use crate::lasts::Lasts;
use crate::open_area::OpenArea;
use crate::sectors::SlotSectors;
use crate::store::Store;
use flash_sim::{Flash, Steps};
use std::sync::ledger::Ledger;

// Whether the bytes are greater than `after` and less than `least`, as far as these are given.
fn is_between(bytes: &[u8], after: Option<&[u8]>, least: Option<&[u8]>) -> bool
    ensures { result
        ≡ (is_behind (option_map (λ other. other.now) after.entry) bytes.now
        && is_below bytes.now (option_map (λ other. other.now) least.entry)) }
{
    after.is_none_or(|after| after.cmp(bytes).is_lt())
        && least.is_none_or(|least| bytes.cmp(least).is_lt())
}

impl<T: SlotSectors> Store<T> {
    // The bytes of an entry if they are greater than `after` and less than `least`; else `least`.
    // This takes at most one step.
    fn lesser_bytes<'a, F: Flash, L: Ledger>(
        &self,
        flash: &'a F,
        placed: &Placed,
        after: Option<&[u8]>,
        least: Option<&'a [u8]>,
        steps: &mut Steps<L>,
    ) -> Option<&'a [u8]>
        requires stands { StandsOn T.role T.format_of T.kept (F.device flash.now) self.now }
        requires placed { IsPlacedOn T.format_of (F.device flash.now) self.now.area self.now.current
            placed.now }
        ensures lesser { let d = F.device flash.now in
            option_map (λ bytes. bytes.now) result
            ≡ lesser_of (option_map (λ other. other.now) after.entry)
            (value_of
            (bytes_of (slots (format_on T.format_of d self.now.area)) (sectors_of d self.now.area)
            placed.now)) (option_map (λ bytes. bytes.now) least.entry) }
        ensures step { steps.new ≤ steps.old + 1 }
    {
        match self.bytes_at(flash, placed, steps) {
            Some(bytes) => {
                if is_between(bytes, after, least) {
                    Some(bytes)
                } else {
                    least
                }
            }
            None => least,
        }
    }

    /// The least bytes of an item with an id from `least` to `most`: of those greater than `after`,
    /// or of all if `after` is not given; `None` if there are none. The range has at most
    /// `MOST_IDS` ids. This takes one walk over the list: it takes at most one step for each
    /// sector, and two for each slot: for its entry and for that entry's bytes.
    pub fn next_of<'a, F: Flash, L: Ledger>(
        &self,
        flash: &'a F,
        least: u32,
        most: u32,
        after: Option<&[u8]>,
        steps: &mut Steps<L>,
    ) -> Option<&'a [u8]>
        requires stands { StandsOn T.role T.format_of T.kept (F.device flash.now) self.now }
        requires range { most < least + MOST_IDS }
        ensures next { IsNextOf least most (items_on T.format_of (F.device flash.now) self.now.area)
            (option_map (λ other. other.now) after.entry) (option_map (λ bytes. bytes.now) result) }
        ensures steps { let d = F.device flash.now in let sectors = sectors_of d self.now.area in
            let slots = slots_in_all (format_on T.format_of d self.now.area) sectors in
            steps.new ≤ steps.old + self.now.area.sectors + 2 * slots }
    {
        let tops = self.cache.tops();
        let on = OpenArea {
            area: &self.area,
            current: self.current,
            opened: self.opened,
            tops,
        };
        let mut lasts = Lasts::start(flash, &on, least, most, steps);
        let mut found = None;
        while let Some(placed) = lasts.next(flash, &on, steps) {
            found = self.lesser_bytes(flash, &placed, after, found, steps);
        }
        found
    }
}
