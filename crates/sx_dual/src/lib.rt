//! What shows that a flow of trade is a greatest one, or that there is none within its bounds.
//!
//! [`Bounds`] say the least and the greatest value that each ordered pair of assets may trade, a
//! [`Flow`] says the value that it trades, and [`Potentials`] give each asset a number. [`fits`]
//! answers Ok exactly if the flow is a circulation within the bounds and keeps the rule on gains; no
//! circulation within the same bounds then trades more value. Otherwise it answers the first
//! [`Misfit`]. A [`Cut`] is a set of assets, and [`cuts`] says whether more must go into it than may
//! go out; no circulation then exists. Whoever found the flow, the potentials or the cut need not be
//! trusted. No call takes memory.
//!
//! `specs/` holds the definitions that the crates above share: circulations, traded value, fits and
//! cuts, over functions of two assets, with no limit to any number. [`dual_laws`] carries their laws.
//!
//! Not here: how flows, potentials and cuts are found, and how offers make bounds.
#![tactic(auto)]

mod balance;
mod bounds;
mod cut;
mod cutting;
mod entries;
mod fitting;
mod flow;
mod laws;
mod misfit;
mod potentials;

pub use bounds::Bounds;
pub use cut::Cut;
pub use cutting::cuts;
pub use fitting::fits;
pub use flow::Flow;
pub use laws::dual_laws;
pub use misfit::Misfit;
pub use potentials::Potentials;
