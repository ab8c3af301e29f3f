//! The path rule of inclusive gateways: which flows hold a gateway back, and why.
#![tactic(auto)]

mod avoiding;
mod levels;
mod links;
mod reach;
pub mod reason;
pub mod routing;
pub mod rule;
pub mod worked;
