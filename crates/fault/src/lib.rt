//! What is refused, and why: the record of a fault, and one enum for each layer.
//!
//! A fault of a lower layer stands inside the fault of the layer above it. `From` turns the one into the other,
//! so `?` carries it on, and its record comes out whole.
#![tactic(auto)]

pub mod console;
pub mod count;
pub mod graph;
pub mod line;
pub mod model;
pub mod record;
pub mod service;
pub mod text;
