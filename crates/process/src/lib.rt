//! What a process is made of: nodes, sequence flows and their conditions.
#![tactic(auto)]

pub mod draft;
pub mod flow;
pub mod node;
pub mod numbers;
pub mod ranges;
pub mod row;
pub mod sets;
