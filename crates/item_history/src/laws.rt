// Laws. The function does nothing: its contract is the law.
ghost use Rattle.item_history.specs.Laws.{ItemsFit};

/// The items of an area at rest cost no more than all sectors but one have room for. So `free` is
/// exactly that room less `live`.
pub fn items_fit()
    ensures { ItemsFit }
{}
