//! Sound models: the rules that a process has to keep, and the model that keeps them.
#![tactic(auto)]

mod check;
pub mod model;
mod reached;
mod rules;
