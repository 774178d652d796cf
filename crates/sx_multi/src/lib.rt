//! Several price searches at once, of which the best is posted.
//!
//! [`search_many`] runs 1 to 8 searches of `sx_search` from the same prices, each of them on a thread of
//! its own. They differ in the exponent that they begin with: search number 0 begins with 4, the usual
//! one, and the numbers 1 to 7 begin with 1, 2, 3, 5, 6, 7 and 8. The answer is the prices of the search whose
//! result leaves the least imbalance, and of equal ones of the search with the least number:
//!
//! ```text
//!     number      0    1    2    3    4    5    6    7
//!     exponent    4    1    2    3    5    6    7    8
//!     imbalance  90   50   70   50   90   95   97   99
//!                      |
//!                   posted
//! ```
//!
//! So the prices are the same whatever the threads do, and with one search they are those of
//! `sx_search::search`. For several searches as many threads are started, while the calling one waits. Where no
//! thread can be started for some of them, those run one after the other. All threads have ended when
//! the call returns.
//!
//! Cost: that of the searches, which share nothing but the curves and the prices that they start from, and the
//! memory of them all.
//!
//! Not here: nothing says that more searches find better prices than fewer, only no worse ones, nor that
//! any of them balances the market, nor that searches run at the same time.
//!
//! Source: to search from several steps at once and take the best result is a plain restart method; the
//! searches are those of Ramseyer, Goel and Mazières, "SPEEDEX: A Scalable, Parallelizable, and Economically
//! Efficient Decentralized EXchange" (NSDI 2023). The numbers and their order are this project's own.
#![tactic(auto)]

mod laws;
mod many;
mod number;
mod slots;

pub use laws::posted_laws;
pub use many::search_many;
