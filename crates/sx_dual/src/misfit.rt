//! Why a flow and potentials do not fit.

ghost use Rattle.std.specs.Prelude.{◌≡◌};

use sx_base::AssetId;
use thiserror::Error;

/// Why a flow and potentials do not fit. Where several reasons hold, the first counts.
#[derive(Clone, Copy, Debug, PartialEq, Eq, Error)]
pub enum Misfit {
    /// 1: the first pair, by the sold and then the bought asset, that trades less than its lower
    /// bound or more than its upper one. The three are values, in units of `2^-24`.
    #[error("asset {} for asset {}: the value {y} is not between {low} and {high}", .sell.get(), .buy.get())]
    Outside {
        sell: AssetId,
        buy: AssetId,
        low: u128,
        high: u128,
        y: u128,
    },
    /// 2: the first asset of which the value sold, `out`, is not the value bought, `into`, both in
    /// units of `2^-24`.
    #[error("asset {}: the value {out} is sold and {into} is bought", .asset.get())]
    Unbalanced {
        asset: AssetId,
        out: u128,
        into: u128,
    },
    /// 3: the first pair that has a gain above 0 and trades less than it may, or a gain below 0 and
    /// trades more than it must. `y` is the value that it trades, in units of `2^-24`.
    #[error("asset {} for asset {}: the value {y} does not suit the gain {gain}", .sell.get(), .buy.get())]
    Slack {
        sell: AssetId,
        buy: AssetId,
        gain: i64,
        y: u128,
    },
}

impl Misfit {
    ghost use Rattle.sx_dual.specs.Misfit.{number_of};

    /// The number of the misfit.
    pub fn number(self) -> u8
        ensures { result ≡ number_of self }
    {
        match self {
            Misfit::Outside { .. } => 1,
            Misfit::Unbalanced { .. } => 2,
            Misfit::Slack { .. } => 3,
        }
    }
}
