//! Tests of the crate `service`: the tray, the order file, and a service of the tests' own.
#![tactic(auto)]

pub mod orders;
pub mod single;
pub mod trays;
