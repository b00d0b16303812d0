// The worked sums of the rules, proved about the definitions that the contracts cite.
#![tactic(auto)]

ghost use Rattle.worked_sums.specs.Sums.{WorkedSums};

pub mod calendar_of_run;
pub mod run;

pub fn worked_sums()
    ensures { WorkedSums }
{}
