// Look-ups: two items as a name and its value.
ghost use Rattle.std.specs.Prelude.{◌≡◌, ◌+◌, true, false, Some, option_map, IfSome};
ghost use Rattle.std.specs.FinMap as finite;
ghost use Rattle.setting_name.specs.Name.{IsName};
ghost use Rattle.flash_map.specs.Area.{value_limit};
ghost use Rattle.flash_map.specs.Lawful.{IsLawfulFor};
ghost use Rattle.flash_map.specs.On.{on, HoldsOn, StandsOn};
ghost use Rattle.named_items.specs.Pairs.{settings_in, HasNoOrphans, IsIdOfName};
ghost use Rattle.named_items.specs.Looking.{is_value, HasIds, StandsHere};

use crate::numbering::IdLayout;
use crate::store::ItemStore;
use flash_sim::{Flash, Steps};
use item_store::Holder;
use setting_name::Name;
use std::sync::ledger::Ledger;

// Whether an item has these bytes.
pub(crate) fn has_bytes(found: Option<&[u8]>, bytes: &[u8]) -> bool
    ensures yes_it { result ≡ true → option_map (λ own. own.now) found.entry ≡ Some bytes.now }
    ensures not_it { result ≡ false → option_map (λ own. own.now) found.entry ≡ Some bytes.now
        → ⊥ }
{
    match found {
        Some(own) => own == bytes,
        None => false,
    }
}

/// Whether the item holds this name. The name is lawful.
pub fn is_named(found: Option<&[u8]>, name: &Name) -> bool
    ensures yes_it { result ≡ true → option_map (λ bytes. bytes.now) found.entry ≡ Some name.now }
    ensures not_it { result ≡ false → option_map (λ bytes. bytes.now) found.entry ≡ Some name.now
        → ⊥ }
    ensures name { IsName name.now }
{
    has_bytes(found, name.bytes())
}

/// Whether the item holds 1 to `longest` bytes, as a value does.
pub fn is_value(found: Option<&[u8]>, longest: u32) -> bool
    ensures { result ≡ is_value longest (option_map (λ bytes. bytes.now) found.entry) }
{
    match found {
        Some(bytes) => !bytes.is_empty() && bytes.len() <= longest as usize,
        None => false,
    }
}

/// Whether the item `first` is the name and the item `second` a value that the area allows. It
/// reads the value only if the name is there.
pub fn is_at<S: ItemStore, F: Flash, L: Ledger>(
    store: &S,
    flash: &F,
    index: &S::Index,
    name: &Name,
    first: u32,
    second: u32,
    steps: &mut Steps<L>,
) -> bool
    requires lawful { IsLawfulFor (F.device flash.now).banks (S.mounted_on store.now) }
    requires stands { StandsOn S.mounted_on S.stands (F.device flash.now) store.now }
    requires describes { HoldsOn (S.describes index.now) (F.device flash.now)
        (S.mounted_on store.now) }
    requires first { S.is_id first }
    requires second { S.is_id second }
    ensures yes_it { let area = S.mounted_on store.now in
        result ≡ true
        → StandsHere (value_limit area) (on S.contents (F.device flash.now) area) first second
        name.now }
    ensures not_it { let area = S.mounted_on store.now in
        result ≡ false
        → ¬ StandsHere (value_limit area) (on S.contents (F.device flash.now) area) first second
        name.now }
    ensures name { IsName name.now }
{
    let longest = store.area().value_limit();
    if !is_named(store.get_by(flash, index, first, steps), name) {
        return false;
    }
    is_value(store.get_by(flash, index, second, steps), longest)
}

/// The id at which the setting of a name stands, and its value; `None` if the name has no value. No
/// item may be an orphan. It searches the store's entries, and makes no index.
pub fn setting_of<'a, N: IdLayout, S: ItemStore, F: Flash, L: Ledger>(
    store: &S,
    flash: &'a F,
    name: &Name,
    steps: &mut Steps<L>,
) -> Option<Holder<'a>>
    requires ids { HasIds N.top S.is_id }
    requires lawful { IsLawfulFor (F.device flash.now).banks (S.mounted_on store.now) }
    requires stands { StandsOn S.mounted_on S.stands (F.device flash.now) store.now }
    requires clean { let area = S.mounted_on store.now in
        HasNoOrphans (N.numbering area) (on S.contents (F.device flash.now) area) }
    ensures candidate { let area = S.mounted_on store.now in
        IsIdOfName (N.numbering area) (on S.contents (F.device flash.now) area) name.now
        (option_map (λ holder. holder.id) result) }
    ensures value { let area = S.mounted_on store.now in
        IfSome result (λ holder. option_map (λ value. value.now) holder.above
        ≡ finite.get (on S.contents (F.device flash.now) area)
        (holder.id + (N.numbering area).step)) }
{
    let ids = N::candidates_of(name);
    store.holder_of(flash, &ids, N::step(), name.bytes(), steps)
}

/// The value of a name; `None` if it has none. No item may be an orphan. It first asks
/// `IdLayout::may_have`, and does not search for a name that this rules out. It makes no index.
pub fn standing_value<'a, N: IdLayout, S: ItemStore, F: Flash, L: Ledger>(
    store: &S,
    flash: &'a F,
    name: &Name,
    steps: &mut Steps<L>,
) -> Option<&'a [u8]>
    requires ids { HasIds N.top S.is_id }
    requires lawful { IsLawfulFor (F.device flash.now).banks (S.mounted_on store.now) }
    requires stands { StandsOn S.mounted_on S.stands (F.device flash.now) store.now }
    requires clean { let area = S.mounted_on store.now in
        HasNoOrphans (N.numbering area) (on S.contents (F.device flash.now) area) }
    ensures { let area = S.mounted_on store.now in
        option_map (λ bytes. bytes.now) result
        ≡ finite.get (settings_in (N.numbering area) (on S.contents (F.device flash.now) area))
        name.now }
{
    if !N::may_have(store, flash, name, steps) {
        return None;
    }
    setting_of::<N, S, F, L>(store, flash, name, steps)?.above
}

/// The value of a name; `None` if it has none. Items may be orphans, as before a mount has removed
/// them; none of these is given as a value. It first asks `IdLayout::may_have`. If that does not
/// rule the name out, it makes an index and looks at each id of the name. If no item is an orphan,
/// `standing_value` is faster and gives the same.
pub fn value_of<'a, N: IdLayout, S: ItemStore, F: Flash, L: Ledger>(
    store: &S,
    flash: &'a F,
    name: &Name,
    steps: &mut Steps<L>,
) -> Option<&'a [u8]>
    requires ids { HasIds N.top S.is_id }
    requires lawful { IsLawfulFor (F.device flash.now).banks (S.mounted_on store.now) }
    requires stands { StandsOn S.mounted_on S.stands (F.device flash.now) store.now }
    ensures { let area = S.mounted_on store.now in
        option_map (λ bytes. bytes.now) result
        ≡ finite.get (settings_in (N.numbering area) (on S.contents (F.device flash.now) area))
        name.now }
{
    if !N::may_have(store, flash, name, steps) {
        return None;
    }
    let mut index = S::new_index();
    store.fill_index(flash, &mut index, steps);
    let candidate = N::id_of(store, flash, &index, name, steps)?;
    store.get_by(flash, &index, candidate + N::step(), steps)
}
