// A site before its year is opened: its plants and the year to settle.
#![tactic(auto)]

pub mod draft;
pub mod plant;
pub mod register;
pub mod year;
