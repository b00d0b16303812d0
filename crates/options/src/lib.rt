// Settlement options: what a year's quarters come to under a rule of netting and market premium.
#![tactic(auto)]

pub mod admission;
pub mod amounts;
pub mod histories;
pub mod marks;
pub mod settlement_option;
pub mod taken;
