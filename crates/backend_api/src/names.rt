// The order of names.
ghost use Rattle.std.specs.Prelude.{◌≡◌, option_map};
ghost use Rattle.backend_api.specs.Map.{is_behind};

use setting_name::Name;

/// Whether a name is greater than `after` in byte order; every name is if `after` is not given.
pub fn is_behind(name: &[u8], after: Option<&Name>) -> bool
    ensures { result ≡ is_behind (option_map (λ other. other.now) after.entry) name.now }
{
    match after {
        Some(after) => after.bytes().cmp(name).is_lt(),
        None => true,
    }
}
