//! The search for a cycle that gains.

ghost use Rattle.std.specs.Prelude.{◌≡◌, ℕ, ◌<◌, ◌≤◌, length, IfSome, IfNone};
ghost use Rattle.sx_circ.specs.Labels.{AreAllLevel, AreLabels};
ghost use Rattle.sx_circ.specs.Residual.{KeepsBounds};
ghost use Rattle.sx_circ.specs.Walks.{IsGaining};
ghost use Rattle.sx_dual.specs.Tables.{entry_at, high_of, low_of};

use crate::raising::{Found, raise};
use crate::walk::{Cycle, Walk, stay};
use sx_dual::Bounds;

// Sets the height of each asset to 0.
fn lower(bounds: &Bounds, values: &[u128], walks: &mut [Walk])
    requires { length walks.old ≡ bounds.now.assets }
    ensures { AreLabels bounds.now.assets (low_of bounds.now) (high_of bounds.now) (entry_at bounds.now.assets values.now) walks.new }
{
    for asset in 0..bounds.assets() {
        walks[asset as usize] = stay(asset);
    }
}

// A cycle that gains. Where there is none, no step leads above the heights that are left.
pub fn gaining_cycle(bounds: &Bounds, values: &[u128], walks: &mut [Walk]) -> Option<Cycle>
    requires keeps { KeepsBounds bounds.now values.now }
    requires few { bounds.now.assets ≤ 32 }
    requires count { length walks.old ≡ bounds.now.assets }
    ensures count { length walks.new ≡ bounds.now.assets }
    ensures some { IfSome result (IsGaining bounds.now.assets (low_of bounds.now) (high_of bounds.now) (entry_at bounds.now.assets values.now)) }
    ensures labels { AreLabels bounds.now.assets (low_of bounds.now) (high_of bounds.now) (entry_at bounds.now.assets values.now) walks.new }
    ensures none { IfNone result (AreAllLevel bounds.now.assets (low_of bounds.now) (high_of bounds.now) (entry_at bounds.now.assets values.now) walks.new) }
{
    lower(bounds, values, walks);
    'raises: loop {
        match raise(bounds, values, walks) {
            Found::Nothing => return None,
            Found::Raised => {}
            Found::Gaining(cycle) => return Some(cycle),
        }
    }
}
