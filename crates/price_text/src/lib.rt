// A year's prices as text: a line with the run lengths, and then a line for each quarter hour.
#![tactic(auto)]

mod line;
pub mod problem;
pub mod text;
