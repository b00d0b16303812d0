// The account that a file's records build up: each record is put to the call that it names, under the option that the year record names.
#![tactic(auto)]

pub mod account_of_file;
pub mod chosen;
mod content;
