// The price rule: a value calendar made from a year's prices, one for each quarter hour.
#![tactic(auto)]

pub mod price_rule;
mod runs;
