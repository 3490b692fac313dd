// The removal of items that belong to no setting.
ghost use Rattle.std.specs.Prelude.{◌≡◌, ◌+◌, ◌<◌, ◌∷◌, [], false, is_err, None};
ghost use Rattle.std.specs.FinMap as finite;
ghost use Rattle.flash_map.specs.Area.{geometry_of};
ghost use Rattle.flash_map.specs.Lawful.{IsLawfulFor};
ghost use Rattle.flash_map.specs.Touches.{Touches};
ghost use Rattle.flash_map.specs.On.{on, HoldsOn, StandsOn};
ghost use Rattle.backend_api.specs.Room.{removal_units};
ghost use Rattle.backend_api.specs.Written.{StaysWritten};
ghost use Rattle.named_items.specs.Mounted.{StaysMounted};
ghost use Rattle.named_items.specs.Pairs.{HasNoOrphans, IsKept};
ghost use Rattle.named_items.specs.Seen.{HasCome, SawBelow};
ghost use Rattle.named_items.specs.Looking.{HasIds};
ghost use Rattle.named_items.specs.Orphans.{KeepsSettings, PassesOne, RemovalEnds, SpendsRemoving};
ghost use Rattle.named_items.specs.StoreEnds.{delete_units};

use crate::keeping::is_kept_next;
use crate::numbering::IdLayout;
use crate::seen::SeenNames;
use crate::store::ItemStore;
use flash_sim::{Flash, PowerLost, Steps};
use std::sync::ledger::Ledger;

// Deletes the item of an id that is neither the count nor a part of a setting in effect, and fills
// the index anew.
fn remove_orphan<N: IdLayout, S: ItemStore, F: Flash, L: Ledger>(
    store: &mut S,
    flash: &mut F,
    index: &mut S::Index,
    id: u32,
    steps: &mut Steps<L>,
) -> Result<(), PowerLost>
    requires ids { HasIds N.top S.is_id }
    requires lawful { IsLawfulFor (F.device flash.old).banks (S.mounted_on store.old) }
    requires stands { StandsOn S.mounted_on S.stands (F.device flash.old) store.old }
    requires known { id < N.top }
    requires orphan { let area = S.mounted_on store.old in
        IsKept (N.numbering area) (on S.contents (F.device flash.old) area) id → ⊥ }

    ensures touches { Touches (S.mounted_on store.old ∷ []) (F.device flash.old)
        (F.device flash.new) (is_err result) }
    ensures store { StaysMounted S.mounted_on S.stands S.runs S.damage (F.device flash.new)
        store.old store.new (is_err result) }
    ensures one { let d = F.device flash.old in let e = F.device flash.new in
        let area = S.mounted_on store.old in
        PassesOne (N.numbering area) (removal_units (geometry_of d area))
        (delete_units S.removal S.entry S.roomy d area) d e (on S.contents d area)
        (on S.contents e area) id (is_err result) }
    ensures written { StaysWritten (F.device flash.old) (F.device flash.new)
        (S.mounted_on store.old) }
    ensures describes { is_err result ≡ false
        → HoldsOn (S.describes index.new) (F.device flash.new) (S.mounted_on store.new) }
    ensures gone { is_err result ≡ false
        → finite.get (on S.contents (F.device flash.new) (S.mounted_on store.old)) id ≡ None }
{
    store.delete(flash, id, steps)?;
    store.fill_index(flash, index, steps);
    Ok(())
}

// Deletes an item, unless it is the count or a part of a setting in effect: then nothing is
// programmed. Below the id no orphan is left. The set has the names below, and gets the name at the
// id. The index then has the items that are left.
fn remove_next<N: IdLayout, S: ItemStore, F: Flash, L: Ledger>(
    store: &mut S,
    flash: &mut F,
    index: &mut S::Index,
    seen: &mut SeenNames,
    id: u32,
    steps: &mut Steps<L>,
) -> Result<(), PowerLost>
    requires ids { HasIds N.top S.is_id }
    requires lawful { IsLawfulFor (F.device flash.old).banks (S.mounted_on store.old) }
    requires stands { StandsOn S.mounted_on S.stands (F.device flash.old) store.old }
    requires describes { HoldsOn (S.describes index.old) (F.device flash.old)
        (S.mounted_on store.old) }
    requires known { id < N.top }
    requires walked { let area = S.mounted_on store.old in
        HasCome (N.numbering area) (on S.contents (F.device flash.old) area) seen.old.words id }

    ensures touches { Touches (S.mounted_on store.old ∷ []) (F.device flash.old)
        (F.device flash.new) (is_err result) }
    ensures store { StaysMounted S.mounted_on S.stands S.runs S.damage (F.device flash.new)
        store.old store.new (is_err result) }
    ensures one { let d = F.device flash.old in let e = F.device flash.new in
        let area = S.mounted_on store.old in
        PassesOne (N.numbering area) (removal_units (geometry_of d area))
        (delete_units S.removal S.entry S.roomy d area) d e (on S.contents d area)
        (on S.contents e area) id (is_err result) }
    ensures written { StaysWritten (F.device flash.old) (F.device flash.new)
        (S.mounted_on store.old) }
    ensures describes { is_err result ≡ false
        → HoldsOn (S.describes index.new) (F.device flash.new) (S.mounted_on store.new) }
    ensures saw { let area = S.mounted_on store.old in
        is_err result ≡ false → SawBelow (N.numbering area)
        (on S.contents (F.device flash.new) area) seen.new.words (id + 1) }
{
    if is_kept_next::<N, S, F, L>(store, flash, index, seen, id, steps) {
        return Ok(());
    }
    remove_orphan::<N, S, F, L>(store, flash, index, id, steps)
}

/// Deletes every orphan, in rising order of ids: each item that is neither the count nor a part of
/// a setting in effect. All others stay, and none is new. It spends at most the units and erases of
/// one removal (`removal_units`) for each item that there is, and at most those of one delete of the
/// store for each orphan, of which the first may need no garbage collection. The area is all FF
/// afterwards only if it was so before.
///
/// # Errors
/// `PowerLost`: the settings and each item that is kept are as before. There is an id below
/// which no orphan is left, and above which every item is as before; the item at that id is as
/// before, or gone.
#[tactic(auto, using(flash_map::proofs::Touches::then))]
pub fn remove_orphans<N: IdLayout, S: ItemStore, F: Flash, L: Ledger>(
    store: &mut S,
    flash: &mut F,
    steps: &mut Steps<L>,
) -> Result<(), PowerLost>
    requires ids { HasIds N.top S.is_id }
    requires lawful { IsLawfulFor (F.device flash.old).banks (S.mounted_on store.old) }
    requires stands { StandsOn S.mounted_on S.stands (F.device flash.old) store.old }

    ensures touches { Touches (S.mounted_on store.old ∷ []) (F.device flash.old)
        (F.device flash.new) (is_err result) }
    ensures store { StaysMounted S.mounted_on S.stands S.runs S.damage (F.device flash.new)
        store.old store.new (is_err result) }
    ensures keeps { let area = S.mounted_on store.old in
        KeepsSettings (N.numbering area) (on S.contents (F.device flash.old) area)
        (on S.contents (F.device flash.new) area) }
    ensures ends { let area = S.mounted_on store.old in
        RemovalEnds (N.numbering area) (on S.contents (F.device flash.old) area)
        (on S.contents (F.device flash.new) area) result }
    ensures units { let d = F.device flash.old in let area = S.mounted_on store.old in
        SpendsRemoving (N.numbering area) (removal_units (geometry_of d area))
        (delete_units S.removal S.entry S.roomy d area) d (F.device flash.new)
        (on S.contents d area) }
    ensures written { StaysWritten (F.device flash.old) (F.device flash.new)
        (S.mounted_on store.old) }
    ensures rests { let area = S.mounted_on store.old in
        HasNoOrphans (N.numbering area) (on S.contents (F.device flash.old) area)
        → F.device flash.new ≡ F.device flash.old }
{
    let mut index = S::new_index();
    store.fill_index(flash, &mut index, steps);
    let mut seen = SeenNames::new();
    let mut at = store.next_by(flash, &index, None, steps);
    while let Some(id) = at {
        remove_next::<N, S, F, L>(store, flash, &mut index, &mut seen, id, steps)?;
        at = store.next_by(flash, &index, Some(id), steps);
    }
    Ok(())
}
