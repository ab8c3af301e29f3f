//! A work list over lent memory, and the search of a graph that is built on it.
//!
//! Neither knows what its entries or places stand for: whatever can be compared for sameness can be searched.
#![tactic(auto)]

pub mod places;
pub mod search;
pub mod worklist;
