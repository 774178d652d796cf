//! Levels without assets, and the assets above them.

ghost use Rattle.std.specs.Prelude.{◌≡◌, ◌≢◌, ℕ, ◌+◌, ◌<◌, ◌≤◌, ◌^◌, ◌↔◌, length, slice_index};
ghost use Rattle.std.specs.Prelude.{false, IsTrue, IfNone, IfSome};
ghost use Rattle.sx_dual.specs.Cuts.{is_in};
ghost use Rattle.sx_level.specs.Levels.{IsHeld};

use sx_dual::Cut;

// Whether an asset stands at a level.
fn is_held(heights: &[u32], level: u32) -> bool
    ensures held { IsTrue result → IsHeld (length heights.now) heights.now level }
    ensures bare { result ≡ false → (a : ℕ) → a < length heights.now → slice_index heights.now a ≢ level }
{
    for height in heights {
        if *height == level {
            return true;
        }
    }
    false
}

// The first level below another one at which no asset stands.
pub fn first_gap(heights: &[u32], levels: u32) -> Option<u32>
    ensures none { IfNone result ((at : ℕ) → at < levels → IsHeld (length heights.now) heights.now at) }
    ensures below { IfSome result (λ gap. gap < levels) }
    ensures bare { IfSome result (λ gap. (a : ℕ) → a < length heights.now → slice_index heights.now a ≢ gap) }
{
    for level in 0..levels {
        if !is_held(heights, level) {
            return Some(level);
        }
    }
    None
}

// A set of earlier assets, with this asset too where it stands above the level.
fn with_above(heights: &[u32], level: u32, set: u32, asset: u32) -> u32
    requires few { asset < 32 }
    requires within { asset < length heights.now }
    requires earlier { set < 2 ^ asset }
    ensures within { result < 2 ^ (asset + 1) }
    ensures itself { IsTrue (is_in result asset) ↔ (level < slice_index heights.now asset) }
    ensures others { (a : ℕ) → a < asset → is_in result a ≡ is_in set a }
{
    if heights[asset as usize] > level {
        set | 1 << asset
    } else {
        set
    }
}

// The assets above a level.
pub fn assets_above(heights: &[u32], level: u32) -> Cut
    requires { length heights.now ≤ 32 }
    ensures within { result.0 < 2 ^ length heights.now }
    ensures above { (a : ℕ) → a < length heights.now
        → IsTrue (is_in result.0 a) ↔ (level < slice_index heights.now a) }
{
    let mut set = 0;
    for asset in 0..heights.len() as u32 {
        set = with_above(heights, level, set, asset);
    }
    Cut(set)
}
