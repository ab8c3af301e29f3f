//! Counts: set up from a model, begun, stepped and run, with a journal that the caller lends and answers from any service.
#![tactic(auto)]

pub mod counts;
pub mod line;
mod movement;
mod next;
pub mod questions;
pub mod run;
pub mod set_up;
pub mod step;
pub mod verdicts;
