//! The reasons why a block is refused.

ghost use Rattle.std.specs.Prelude.{◌≡◌, ◌++◌, OnOk, string_bytes};
ghost use Rattle.sx_text.specs.Texts.{fields_text, name_of, reason_text};

use crate::fields::{
    put_crowd, put_digests, put_have_said, put_index, put_no_cut, put_outside, put_overdraft,
    put_overspending, put_refused, put_rounding, put_slack, put_unbalance,
};
use crate::lines::put_word;
use sx_block::Invalid;
use sx_bytes::NoMemory;

fn name(why: &Invalid) -> &'static str
    ensures { result.now ≡ name_of why.now }
{
    match why {
        Invalid::Ended => "Ended",
        Invalid::WrongHeight { .. } => "WrongHeight",
        Invalid::WrongParent { .. } => "WrongParent",
        Invalid::WrongBody { .. } => "WrongBody",
        Invalid::WrongAssets { .. } => "WrongAssets",
        Invalid::Tx { .. } => "Tx",
        Invalid::TwoCancels { .. } => "TwoCancels",
        Invalid::TwoNames { .. } => "TwoNames",
        Invalid::Crowded { .. } => "Crowded",
        Invalid::Overdrawn { .. } => "Overdrawn",
        Invalid::Overspent { .. } => "Overspent",
        Invalid::Outside { .. } => "Outside",
        Invalid::Unbalanced { .. } => "Unbalanced",
        Invalid::Slack { .. } => "Slack",
        Invalid::NoCut { .. } => "NoCut",
        Invalid::Rounding { .. } => "Rounding",
        Invalid::WrongAfter { .. } => "WrongAfter",
    }
}

fn put_fields(to: &mut String, why: &Invalid) -> Result<(), NoMemory>
    ensures { OnOk result (string_bytes to.new ≡ string_bytes to.old ++ fields_text why.now) }
{
    match *why {
        Invalid::Ended => put_word(to, ""),
        Invalid::WrongHeight { have, said } => put_have_said(to, have, said),
        Invalid::WrongParent { said, real } => put_digests(to, &said, &real),
        Invalid::WrongBody { said, real } => put_digests(to, &said, &real),
        Invalid::WrongAssets { have, said } => {
            put_have_said(to, u64::from(have), u64::from(said))
        }
        Invalid::Tx { index, why } => put_refused(to, index, why),
        Invalid::TwoCancels { index } => put_index(to, index),
        Invalid::TwoNames { index } => put_index(to, index),
        Invalid::Crowded { have, more, limit } => put_crowd(to, have, more, limit),
        Invalid::Overdrawn {
            account,
            asset,
            opening,
            debits,
        } => put_overdraft(to, account, asset, opening, debits),
        Invalid::Overspent {
            account,
            asset,
            opening,
            credits,
            debits,
        } => put_overspending(to, account, asset, opening, credits, debits),
        Invalid::Outside {
            sell,
            buy,
            low,
            high,
            y,
        } => put_outside(to, sell, buy, low, high, y),
        Invalid::Unbalanced { asset, out, into } => put_unbalance(to, asset, out, into),
        Invalid::Slack { sell, buy, gain, y } => put_slack(to, sell, buy, gain, y),
        Invalid::NoCut { cut } => put_no_cut(to, cut),
        Invalid::Rounding { asset, said, real } => put_rounding(to, asset, said, real),
        Invalid::WrongAfter { said, real } => put_digests(to, &said, &real),
    }
}

/// Appends the number and the name of a reason, and its fields.
pub fn put_reason(to: &mut String, why: &Invalid) -> Result<(), NoMemory>
    ensures { OnOk result (string_bytes to.new ≡ string_bytes to.old ++ reason_text why.now) }
{
    let number = why.number();
    let name = name(why);
    write!(to, "{number} {name}")?;
    put_fields(to, why)
}
