//! Tests of the crate `graph`: work lists of numbers and of pairs, a graph given by its edges, and one whose places are structs.
#![tactic(auto)]

pub mod edges;
pub mod ladder;
pub mod worklist;
