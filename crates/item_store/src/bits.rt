// Sets of numbers as bits.
ghost use Rattle.std.specs.Prelude.{◌≡◌, ◌≢◌, ◌/◌, ◌<◌, ℕ, length, true, false};
ghost use Rattle.item_store.specs.Seen.{has_bit};

/// Whether this bit of some bytes is set.
pub fn has_bit(bytes: &[u8], n: u32) -> bool
    requires { n / 8 < length bytes.now }
    ensures { result ≡ has_bit bytes.now n }
{
    bytes[(n / 8) as usize] >> (n % 8) & 1 == 1
}

/// Sets this bit of some bytes.
pub fn set_bit(bytes: &mut [u8], n: u32)
    requires { n / 8 < length bytes.old }
    ensures set { has_bit bytes.new n ≡ true }
    ensures others { (m : ℕ) → m ≢ n → has_bit bytes.new m ≡ has_bit bytes.old m }
{
    bytes[(n / 8) as usize] |= 1 << (n % 8);
}

/// Clears this bit of some bytes.
pub fn clear_bit(bytes: &mut [u8], n: u32)
    requires { n / 8 < length bytes.old }
    ensures cleared { has_bit bytes.new n ≡ false }
    ensures others { (m : ℕ) → m ≢ n → has_bit bytes.new m ≡ has_bit bytes.old m }
{
    bytes[(n / 8) as usize] &= !(1 << (n % 8));
}

/// Sets this bit of some bytes, or clears it.
pub fn put_bit(bytes: &mut [u8], n: u32, is_set: bool)
    requires { n / 8 < length bytes.old }
    ensures own { has_bit bytes.new n ≡ is_set }
    ensures others { (m : ℕ) → m ≢ n → has_bit bytes.new m ≡ has_bit bytes.old m }
{
    if is_set {
        set_bit(bytes, n);
        return;
    }
    clear_bit(bytes, n);
}
