//! Numbers of assets, and binary digits.

ghost use Rattle.std.specs.Prelude.{◌≡◌, ℕ, ◌<◌, ◌≤◌, ◌^◌};

use sx_base::AssetId;

// The asset of a number.
pub fn asset_of(number: u32) -> AssetId
    requires { number < 32 }
    ensures { result ≡ number }
{
    AssetId::new(number as u8).unwrap()
}

// How many binary digits a number has. 0 has none.
pub fn digits_of(value: u128) -> u32
    ensures enough { value < 2 ^ result }
    ensures fewest { (b : ℕ) → value < 2 ^ b → result ≤ b }
    ensures few { result ≤ 128 }
{
    u128::BITS - value.leading_zeros()
}
