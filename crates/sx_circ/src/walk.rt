//! Walks over assets.

ghost use Rattle.std.specs.Prelude.{◌≡◌, ◌≢◌, ℕ, ◌+◌, ◌<◌, ◌≤◌, slice_set, IfSome, IfNone};
ghost use Rattle.sx_circ.specs.Labels.{IsStay};
ghost use Rattle.sx_circ.specs.Walks.{asset_at, HasRoom};

// A walk over assets, each with a height. Only the places up to the last one count.
#[derive(Clone, Copy)]
pub struct Walk {
    pub assets: [u32; 33],
    pub heights: [u32; 33],
    pub last: u32,
}

// A walk that ends at the asset of an earlier place.
#[derive(Clone, Copy)]
pub struct Cycle {
    pub walk: Walk,
    // The place at which the walk first comes to its last asset.
    pub first: u32,
}

// The walk that stays at an asset, at height 0.
pub fn stay(asset: u32) -> Walk
    ensures { IsStay asset result }
{
    let mut assets = [0; 33];
    assets[0] = asset;
    Walk {
        assets,
        heights: [0; 33],
        last: 0,
    }
}

// The walk with one asset more at its end.
pub fn extended(walk: &Walk, asset: u32, height: u32) -> Walk
    requires room { HasRoom walk.now }
    requires last { walk.now.last < 32 }
    ensures { result ≡ record {
      assets = slice_set walk.now.assets (walk.now.last + 1) asset;
      heights = slice_set walk.now.heights (walk.now.last + 1) height;
      last = walk.now.last + 1;
    } }
{
    let mut longer = *walk;
    longer.last += 1;
    longer.assets[longer.last as usize] = asset;
    longer.heights[longer.last as usize] = height;
    longer
}

// The place at which a walk comes to an asset.
pub fn place_of(walk: &Walk, asset: u32) -> Option<u32>
    requires room { HasRoom walk.now }
    requires last { walk.now.last ≤ 32 }
    ensures some { IfSome result (λ place. (place ≤ walk.now.last) × (asset_at walk.now place ≡ asset)) }
    ensures none { IfNone result ((place : ℕ) → place ≤ walk.now.last → asset_at walk.now place ≢ asset) }
{
    for place in 0..walk.last + 1 {
        if walk.assets[place as usize] == asset {
            return Some(place);
        }
    }
    None
}
