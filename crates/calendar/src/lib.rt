// Value calendars: in which quarter hours a plant's value is above zero.
#![tactic(auto)]

pub mod published_table;
pub mod value_calendar;
