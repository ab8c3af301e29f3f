//! Where the answers to tasks come from: what every service promises, the tray that officers fill, and the order file.
#![tactic(auto)]

pub mod answer;
pub mod order_file;
mod pile;
pub mod service;
pub mod tray;
mod waiting;
