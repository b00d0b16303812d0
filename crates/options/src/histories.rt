// A law over whole histories: whatever quarters an option took, its sums are theirs.
ghost use Rattle.options.specs.Histories.{HistoriesAddUp};

use crate::settlement_option::SettlementOption;

// Of every option: site power, quarters, draw, feed-in and the marked sum of each place.
pub fn histories_add_up<O: SettlementOption>()
    ensures { HistoriesAddUp O.SettlementOption }
{}
