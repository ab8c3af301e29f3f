//! The console's lines: one call for each, which writes it into a buffer that the caller lends.
#![tactic(auto)]

pub mod lines;
mod writing;
