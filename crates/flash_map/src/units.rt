// Whole units, and erased bytes.
ghost use Rattle.std.specs.Prelude.{◌≡◌, ◌+◌, ◌-◌, ◌<◌, ◌≤◌, ◌^◌, ◌==◌, length};
ghost use Rattle.std.specs.List.{suffix_len};
ghost use Rattle.flash_map.specs.Units.{IsUnit, padded, is_erased};

/// The length in bytes, rounded up to the unit.
#[tactic(auto, using(crate::proofs::Rounding::padded_bounds), unfolding(crate::specs::Units::padded))]
pub fn padded(unit: u32, len: u32) -> u32
    requires unit { IsUnit unit }
    requires len { len < 2 ^ 31 }
    ensures value { result ≡ padded unit len }
    ensures at_least { len ≤ result }
    ensures at_most { result ≤ len + 15 }
{
    (len + (unit - 1)) / unit * unit
}

/// Whether each byte is FF.
pub fn is_erased(bytes: &[u8]) -> bool
    ensures { result ≡ is_erased bytes.now }
{
    bytes.iter().all(|byte| *byte == 0xFF)
}

/// The length without the erased bytes at the end.
pub fn trimmed_len(bytes: &[u8]) -> usize
    ensures { result ≡ length bytes.now - suffix_len (λ byte. byte == 0xFF) bytes.now }
{
    let mut len = bytes.len();
    while len > 0 && bytes[len - 1] == 0xFF {
        len -= 1;
    }
    len
}
