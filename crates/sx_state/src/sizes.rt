//! How many bytes the entries of a state take.

ghost use Rattle.std.specs.Prelude.{◌≡◌, ◌==◌, ◌+◌, ◌*◌, if◌then◌else◌};

/// How many bytes the longest state has.
pub const LONGEST_STATE: u32 = 27_263_506;

// A state without its assets, accounts and offers.
pub const FRAME_BYTES: u32 = 18;

// An account without its map and its balances.
pub const ACCOUNT_BYTES: u32 = 16;

// The map of an account in a state of this version.
pub fn map_bytes(version: u8) -> u32
    ensures { result ≡ if version == 1 then 0 else 8 }
{
    if version == 1 { 0 } else { 8 }
}

// An account of a state of this version with so many assets.
pub fn account_width(version: u8, assets: u8) -> usize
    ensures { result ≡ 16 + (if version == 1 then 0 else 8) + 8 * assets }
{
    ACCOUNT_BYTES as usize + map_bytes(version) as usize + 8 * usize::from(assets)
}

pub const OFFER_BYTES: u32 = 34;
