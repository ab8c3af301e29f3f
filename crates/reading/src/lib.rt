//! From a text to a model: the words of each line, the lines one after another, and then the process as a whole.
//! Likewise from an order text to its lines.
#![tactic(auto)]

mod fields;
pub mod lines;
pub mod model_text;
pub mod order;
