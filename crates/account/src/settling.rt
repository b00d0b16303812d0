// How a statement is made: one rule for interim and final ones.
ghost use Rattle.std.specs.Prelude.{◌≡◌};
ghost use Rattle.account.specs.Statements.{contract_lines, settled, interim, finally, Fills};
ghost use Rattle.figures.specs.declared.lines.Standing.TheVariants.{Interim, Final};

use crate::ledger::Ledger;
use crate::year::{Closed, Opened};
use division::divide_held;
use fault::Fault;
use fault::cause::Cause;
use figures::lines::{ContractLine, Standing};
use options::settlement_option::SettlementOption;
use statement::{MOST_CONTRACTS, Statement};
use valuing::{draw_figures, plant_lines, totals_of};

// The line of each contract, blank where there is none. By place, since a statement keeps arrays.
fn contract_lines(ledger: &Ledger, netted: u32) -> [ContractLine; MOST_CONTRACTS]
    ensures { result ≡ contract_lines netted ledger.now }
{
    let contracts = ledger.contracts();
    let shares = divide_held(netted, contracts);
    let mut lines = [ContractLine::default(); MOST_CONTRACTS];
    for (place, contract) in contracts.iter().enumerate() {
        lines[place] = ContractLine {
            number: contract.number,
            draw: draw_figures(contract.draw, shares[place]),
        };
    }
    lines
}

fn settle<O: SettlementOption>(opened: &Opened<O>, year: u16, standing: Standing) -> Statement
    requires { opened.now.year ≡ Some year }
    ensures { result ≡ settled O.SettlementOption opened.now standing }
{
    let option = &opened.option;
    let register = opened.draft.register();
    let totals = totals_of(option);
    Statement {
        year,
        option: O::number(),
        quarters: option.quarters(),
        standing,
        totals,
        plants: plant_lines(option, register),
        plant_count: register.count(),
        contracts: contract_lines(&opened.ledger, totals.draw.netted),
        contract_count: opened.ledger.contracts().len(),
    }
}

// Two calls and not a generic one: they ask different questions, and share all of the statement's making.
// The statement is the caller's and no result, so that a refusal leaves it as it was.
impl<O: SettlementOption> Opened<O> {
    // An interim statement.
    pub fn statement(&self, statement: &mut Statement) -> Result<(), Fault>
        ensures { Fills result (interim O.SettlementOption self.now) (settled O.SettlementOption self.now Interim) statement.old statement.new }
    {
        let Some(year) = self.year else {
            return Err(Cause::DraftUnfit.at(self.ledger.entered() as u64));
        };
        *statement = settle(self, year, Standing::Interim);
        Ok(())
    }
}

impl<O: SettlementOption> Closed<O> {
    // A final statement, of a complete year.
    pub fn statement(&self, statement: &mut Statement) -> Result<(), Fault>
        ensures { Fills result (finally O.SettlementOption self.now.last) (settled O.SettlementOption self.now.last Final) statement.old statement.new }
    {
        let next = self.last.ledger.entered() as u64;
        let Some(year) = self.last.year else {
            return Err(Cause::DraftUnfit.at(next));
        };
        if !self.last.is_complete() {
            return Err(Cause::YearIncomplete.at(next));
        }
        *statement = settle(&self.last, year, Standing::Final);
        Ok(())
    }
}
