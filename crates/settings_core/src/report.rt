// Reports of a load.
ghost use Rattle.std.specs.Prelude.{◌≡◌, List, [], ◌∷◌, Option, OnOk, OnErr};
ghost use Rattle.settings_core.specs.Deliveries.{Give};
ghost use Rattle.settings_core.specs.Reported.{reported_more};

use flash_sim::NoMemory;
use handlers::ValueView;
use setting_name::Name;
use std::alloc::Global;

/// Receives a report of each value that a load gives to a handler.
pub trait Report {
    /// The reports that it received, in order; `None` if the implementor does not say.
    ghost gives: { Self → Option (List Give) };

    /// Reports that a value was given to the handler of the subtree, and whether the
    /// handler took it.
    fn given(
        &mut self,
        alloc: Global,
        subtree: &Name,
        rest: &[u8],
        value: ValueView<'_>,
        taken: bool,
    ) -> Result<(), NoMemory>
        ensures ok { OnOk result
            (gives self.new
            ≡ reported_more (gives self.old)
            (record
            { subtree = subtree.now; rest = rest.now; value = value.entry.bytes.now; taken = taken }
            ∷ [])) }
        ensures err { OnErr result (gives self.new ≡ gives self.old) };
}
