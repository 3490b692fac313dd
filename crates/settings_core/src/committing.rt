// Committing handlers.
ghost use Rattle.std.specs.Prelude.{◌≡◌, ◌<◌, length, get_or, option_map};
ghost use Rattle.handlers.specs.Registry.{nobody};
ghost use Rattle.settings_core.specs.Committing.{is_under, commit_all};

use crate::placed::PlacedHandlers;
use setting_name::Name;

/// Commits once each handler whose own subtree matches the given one, and no other.
/// With no subtree given, it commits all.
pub fn commit<H: PlacedHandlers>(registry: &mut H, subtree: Option<&Name>)
    ensures { H.placed registry.new
        ≡ commit_all (option_map (λ name. name.now) subtree.entry) (H.placed registry.old) }
{
    let mut i = 0;
    while i < registry.len() {
        if is_place_under(registry, i, subtree) {
            registry.commit_at(i);
        }
        i += 1;
    }
}

// Whether the subtree of the handler at this place matches the given one.
pub(crate) fn is_place_under<H: PlacedHandlers>(
    registry: &H,
    i: usize,
    subtree: Option<&Name>,
) -> bool
    requires { i < length (H.placed registry.now) }
    ensures { result
        ≡ is_under (option_map (λ name. name.now) subtree.entry)
        (get_or (H.placed registry.now) i nobody).subtree }
{
    match registry.subtree(i) {
        Some(own) => is_under(own, subtree),
        None => false,
    }
}

// Whether a name or a subtree matches the given one. If none is given, each matches.
pub(crate) fn is_under(name: &Name, subtree: Option<&Name>) -> bool
    ensures { result ≡ is_under (option_map (λ name. name.now) subtree.entry) name.now }
{
    match subtree {
        Some(subtree) => Name::matches(name, subtree).is_some(),
        None => true,
    }
}
