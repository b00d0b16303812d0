// The figures of a statement's lines: what they hold, and how each line is printed.
#![tactic(auto)]

pub mod lines;
pub mod text;
