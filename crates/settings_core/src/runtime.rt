// Sets and reads of handlers' values at run time.
ghost use Rattle.std.specs.Prelude.{◌≡◌};
ghost use Rattle.handlers.specs.Registry.{registered};
ghost use Rattle.settings_core.specs.Runtime.{RuntimeSetEnds, RuntimeGetEnds};

use crate::offering::{deliver_at, rest_of, subtree_at};
use crate::placed::PlacedHandlers;
use crate::saving::handler_at;
use handlers::Registry;
use setting_name::Name;
use std::alloc::Global;

/// Why a value was not given to a handler.
#[derive(Clone, Copy, Debug, PartialEq, Eq)]
pub enum RuntimeFault {
    /// No subtree matches the name.
    NoHandler,
    /// The handler does not accept the value.
    Rejected,
    /// There was not enough memory.
    NoMemory,
}

/// No subtree matches the name.
#[derive(Clone, Copy, Debug, PartialEq, Eq)]
pub struct NoHandler;

/// Gives a value to the best handler for the name. It stores and commits nothing.
///
/// # Errors
/// `NoHandler` exactly if no subtree matches the name; `Rejected` exactly if the best handler does
/// not accept the value; `NoMemory` only if it does. Nothing changes then.
pub fn runtime_set<H: PlacedHandlers>(
    alloc: Global,
    registry: &mut H,
    name: &Name,
    value: &[u8],
) -> Result<(), RuntimeFault>
    ensures { RuntimeSetEnds (H.placed registry.old) (H.placed registry.new) name.now value.now
        result }
{
    let Some(place) = registry.best(name) else {
        return Err(RuntimeFault::NoHandler);
    };
    let subtree = subtree_at(registry, place);
    let rest = rest_of(name, &subtree);
    match deliver_at(alloc, registry, place, rest, value) {
        Ok(true) => Ok(()),
        Ok(false) => Err(RuntimeFault::Rejected),
        Err(_) => Err(RuntimeFault::NoMemory),
    }
}

/// The value that the best handler for the name holds for it; `None` if it holds none.
///
/// # Errors
/// `NoHandler` exactly if no subtree matches the name.
pub fn runtime_get<'a>(registry: &'a Registry, name: &Name) -> Result<Option<&'a [u8]>, NoHandler>
    ensures { RuntimeGetEnds (registered state registry.now) name.now result }
{
    let Some(place) = registry.best(name) else {
        return Err(NoHandler);
    };
    let subtree = subtree_at(registry, place);
    Ok(handler_at(registry, place).get(rest_of(name, &subtree)))
}
