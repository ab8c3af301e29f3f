//! Which outgoing flows a node puts tokens on: conditions, defaults, and the choice of each kind of gateway.
#![tactic(auto)]

pub mod choices;
pub mod conditions;
