//! Any list of calls on a count, and the law that holds after every one of them.
#![tactic(auto)]

pub mod attend;
pub mod call;
