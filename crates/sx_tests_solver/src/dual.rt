//! Sets of assets that are cuts or none, and the texts of misfits. Stored cases have flows that fit potentials or do not.

use crate::spans::{is_ordered, is_table};
use std::alloc::Global;
use sx_base::AssetId;
use sx_dual::*;

// Whether a set is a cut of the bounds of three assets, where these are the entries of such.
fn is_cut(alloc: Global, low: &[u128], high: &[u128], set: u32) -> Option<bool> {
    if is_table(3, low) && is_table(3, high) && is_ordered(low, high) {
        let bounds = Bounds::of(3, low.to_vec(alloc).ok()?, high.to_vec(alloc).ok()?);
        Some(cuts(&bounds, Cut(set)))
    } else {
        None
    }
}

#[test]
fn sets_are_cuts_where_more_goes_in(rt: HostRuntime) {
    let alloc = rt.alloc();
    // asset 0 must trade 15 for asset 1, and asset 1 must trade 16 for asset 0
    let must = [0, 15, 0, 16, 0, 0, 0, 0, 0];
    assert!(rt; is_cut(alloc, &must, &must, 1) == Some(true));
    assert!(rt; is_cut(alloc, &must, &must, 2) == Some(false));
    assert!(rt; is_cut(alloc, &must, &must, 3) == Some(false));
    assert!(rt; is_cut(alloc, &must, &must, 5) == Some(true));
    // asset 0 may trade 16, or nothing must trade
    let more = [0, 16, 0, 16, 0, 0, 0, 0, 0];
    assert!(rt; is_cut(alloc, &must, &more, 1) == Some(false));
    assert!(rt; is_cut(alloc, &[0; 9], &must, 1) == Some(false));
    dual_laws();
}

// Whether a misfit has a number and a text.
fn says(alloc: Global, misfit: Misfit, number: u8, text: &str) -> Option<bool> {
    let shown = format!(in alloc; "{misfit}").ok()?;
    Some(misfit.number() == number && shown.as_str() == text)
}

fn outside(alloc: Global) -> Option<bool> {
    let misfit = Misfit::Outside {
        sell: AssetId::new(1).ok()?,
        buy: AssetId::new(0).ok()?,
        low: 2,
        high: 4,
        y: 5,
    };
    let text = "asset 1 for asset 0: the value 5 is not between 2 and 4";
    says(alloc, misfit, 1, text)
}

fn unbalanced(alloc: Global) -> Option<bool> {
    let misfit = Misfit::Unbalanced {
        asset: AssetId::new(1).ok()?,
        out: 7,
        into: 8,
    };
    let text = "asset 1: the value 7 is sold and 8 is bought";
    says(alloc, misfit, 2, text)
}

fn slack(alloc: Global) -> Option<bool> {
    let misfit = Misfit::Slack {
        sell: AssetId::new(0).ok()?,
        buy: AssetId::new(1).ok()?,
        gain: -3,
        y: 9,
    };
    let text = "asset 0 for asset 1: the value 9 does not suit the gain -3";
    says(alloc, misfit, 3, text)
}

#[test]
fn misfits_have_numbers_and_texts(rt: HostRuntime) {
    assert!(rt; outside(rt.alloc()) == Some(true));
    assert!(rt; unbalanced(rt.alloc()) == Some(true));
    assert!(rt; slack(rt.alloc()) == Some(true));
}
