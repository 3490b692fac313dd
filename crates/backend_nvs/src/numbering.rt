// At which ids the settings of an NVS area stand.
ghost use Rattle.backend_nvs.specs.IdLayout.{numbering_of, nvs_counted, too_many, nvs-numbering, nvs-within, nvs-counts, nvs-stored, nvs-top};
ghost use Rattle.std.proofs.Common.{refl};
ghost use Rattle.flash_map.specs.Area.{value_limit};
ghost use Rattle.backend_nvs.specs.declared.lookup.TheConstants.{TOP};

use crate::lookup::{FIRST, LIMIT, STEP};
use crate::{kept, lookup, putting};
use flash_sim::{Flash, Steps};
use named_items::{IdLayout, IdRange, ItemStore};
use setting_name::Name;
use std::sync::ledger::Ledger;

/// The layout of ids in NVS: the count at 0x8000, the names from 0x8001, and each value 0x4000
/// above its name.
pub struct NvsIdLayout;

impl IdLayout for NvsIdLayout {
    ghost numbering = { λ area. numbering_of area };

    ghost top = { TOP };

    ghost counted = { λ price. nvs_counted price };

    ghost too_many = { λ settings name. too_many settings name };

    ghost is_numbering = { λ area. nvs-numbering (value_limit area) };

    ghost within = { λ area count. nvs-within count };

    ghost top_small = { nvs-top };

    ghost longest = { λ area. refl };

    ghost count_cost = { λ area price. nvs-counts (value_limit area) price };

    ghost stored_few = { λ settings name stored. nvs-stored settings name stored };

    fn step() -> u32 {
        STEP
    }

    fn candidates_of(_name: &Name) -> IdRange {
        NvsIdLayout::all_candidates()
    }

    fn all_candidates() -> IdRange {
        IdRange {
            least: FIRST,
            most: FIRST + (LIMIT - 1),
        }
    }

    fn may_have<S: ItemStore, F: Flash, L: Ledger>(
        store: &S,
        flash: &F,
        _name: &Name,
        steps: &mut Steps<L>,
    ) -> bool {
        lookup::read_count(store, flash, steps) > 0
    }

    fn end_of_names<S: ItemStore, F: Flash, L: Ledger>(
        store: &S,
        flash: &F,
        index: &S::Index,
        steps: &mut Steps<L>,
    ) -> u32 {
        FIRST + lookup::read_count_by(store, flash, index, steps)
    }

    fn id_of<S: ItemStore, F: Flash, L: Ledger>(
        store: &S,
        flash: &F,
        index: &S::Index,
        name: &Name,
        steps: &mut Steps<L>,
    ) -> Option<u32> {
        lookup::id_of(store, flash, index, name, steps)
    }

    fn is_kept<S: ItemStore, F: Flash, L: Ledger>(
        store: &S,
        flash: &F,
        index: &S::Index,
        id: u32,
        steps: &mut Steps<L>,
    ) -> bool {
        kept::is_kept(store, flash, index, id, steps)
    }

    fn settings_cost<S: ItemStore, F: Flash, L: Ledger>(
        store: &S,
        flash: &F,
        steps: &mut Steps<L>,
    ) -> u64 {
        putting::settings_cost(store, flash, steps)
    }
}
