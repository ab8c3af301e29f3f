//! From bytes to words: the checks of a text as a whole, its lines, their words, and the numbers that words write.
#![tactic(auto)]

pub mod check;
pub mod kinds;
pub mod numbers;
pub mod pieces;
pub mod words;
