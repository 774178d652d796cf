//! A price for each asset.

use crate::price::Price;
use sx_bytes::ListOf;

/// A price for each asset, at the asset's number. Contracts see the list of the numbers, in units of
/// `2^-24`.
pub type Prices = ListOf<Price>;
