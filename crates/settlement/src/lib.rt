// The whole way of a file: its records, put to the account's calls in their order, and the statement at its end.
#![tactic(auto)]

pub mod input;
pub mod pieces;
pub mod settlement;
pub mod whole_file;
