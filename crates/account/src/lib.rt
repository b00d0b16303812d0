// The year account: an opened year takes contracts and quarters, and a closed one is settled for good.
#![tactic(auto)]

pub mod contract;
pub mod entering;
pub mod ledger;
pub mod settling;
pub mod year;
