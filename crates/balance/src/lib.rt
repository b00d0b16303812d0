// Statements that balance against the calls before them, whatever calls were made of an account.
#![tactic(auto)]

ghost use Rattle.figures.specs.declared.lines.Standing.TheVariants.{Interim, Final};
ghost use Rattle.account.specs.Statements.{settled, interim, finally, Fills};
ghost use Rattle.balance.specs.Runs.{opened, closed};
ghost use Rattle.balance.specs.Balances.{Balanced, RunsBalance};

use account::year::{Closed, Opened};
use calendar::value_calendar::ValueCalendar;
use fault::Fault;
use options::settlement_option::SettlementOption;
use statement::Statement;

// The law: every statement given in a run of calls balances against the calls before it. It does nothing; the calls below rest on it.
pub fn runs_balance<O: SettlementOption, C: ValueCalendar>()
    ensures { RunsBalance O.SettlementOption C.ValueCalendar }
{}

// The interim statement of an opened year. It and the final one are two calls, as in the account, since they promise different answers. The statement is the caller's, and a refusal leaves it as it was.
pub fn interim_statement<O: SettlementOption, C: ValueCalendar>(
    year: &Opened<O>,
    statement: &mut Statement,
) -> Result<(), Fault>
    ensures fills { Fills result (interim O.SettlementOption year.now) (settled O.SettlementOption year.now Interim) statement.old statement.new }
    ensures balances { Balanced O.SettlementOption C.ValueCalendar (opened year.now) result statement.new }
{
    runs_balance::<O, C>();
    year.statement(statement)
}

// The final statement of a closed year.
pub fn final_statement<O: SettlementOption, C: ValueCalendar>(
    closed_year: &Closed<O>,
    statement: &mut Statement,
) -> Result<(), Fault>
    ensures fills { Fills result (finally O.SettlementOption closed_year.now.last) (settled O.SettlementOption closed_year.now.last Final) statement.old statement.new }
    ensures balances { Balanced O.SettlementOption C.ValueCalendar (closed closed_year.now) result statement.new }
{
    runs_balance::<O, C>();
    closed_year.statement(statement)
}
