//! Disjoint lists in one pool, linked by index: a node is put after any other and taken out of the
//! middle in constant time.
//!
//! [`Links`] is made for a fixed number of lists. Contracts see it as `Lists`: for each list the pairs
//! of its nodes and values from the front on, and `spare`, the number of nodes for which there is
//! room. A node is a number that stays the same as long as the node stands in its list, and no node
//! stands at two places.
//!
//! [`Links::reserve`] makes room and may answer that memory ran out. [`Links::push_after`],
//! [`Links::set_value`] and [`Links::unlink`] take no memory, and change one list at one place.
//! [`Links::first`] and
//! [`Links::next`] lead through a list: `rest_from` says what is left of it from a node on, so a loop
//! over a list has its length as a measure.
//!
//! Not here: the last node of a list and the way back, the number of nodes of a list, and giving
//! memory back, which `Links` keeps until it is dropped.
#![tactic(auto)]

mod links;
mod pool;

pub use links::Links;
