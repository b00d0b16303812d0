// Lines of a price text: one with the run lengths, and one for each price.
#![tactic(auto)]

mod digits;
pub mod flaw;
pub mod price;
pub mod run_lengths;
