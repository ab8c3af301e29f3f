//! Tokens on the flows of a model, and for each inclusive gateway how many of them hold it back.
#![tactic(auto)]

pub mod marking;
mod recount;
