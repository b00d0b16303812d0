// Every refusal of the register, the account, the option and the calendar, reached by their calls; what was refused has changed nothing.
#![tactic(auto)]

mod accounts;
mod drafts;
pub mod expected;
mod layers;
