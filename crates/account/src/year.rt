// The states of a year account after its draft: each step takes the earlier state away.
ghost use Rattle.std.specs.Prelude.{◌≡◌, ℕ, Some, None};

use crate::ledger::Ledger;
use fault::Fault;
use fault::cause::Cause;
use options::settlement_option::SettlementOption;
use site::draft::Draft;
use site::year::quarters_in;
use statement::MOST_CONTRACTS;

// A year that takes contracts and quarters. One opened from an unfit draft refuses every call but closing.
// The year to settle is the draft's, and where there is none, no quarter was entered.
#[derive(Drop)]
pub struct Opened<O> {
    pub(crate) draft: Draft,
    // The year to settle, if the draft is fit.
    pub(crate) year: Option<u16>,
    pub(crate) ledger: Ledger,
    pub(crate) option: O,
    ghost of_draft: { ((y : ℕ) → year ≡ Some y → draft.year ≡ Some y) },
    ghost unfit: { year ≡ None → ledger.entered ≡ 0 },
}

// A year that takes nothing more.
#[derive(Drop)]
pub struct Closed<O> {
    pub(crate) last: Opened<O>,
}

impl<O: SettlementOption> Opened<O> {
    ghost use Rattle.account.specs.Calls.{Opens, Begins, Closes, complete};

    // The option starts with the power of all plants.
    pub fn open(draft: Draft) -> Opened<O>
        ensures { Opens O.SettlementOption draft result }
    {
        let year = if draft.check_fitness::<O>().is_ok() {
            draft.year()
        } else {
            None
        };
        let power = draft.register().power();
        Opened {
            draft,
            year,
            ledger: Ledger::new(),
            option: O::start(power),
        }
    }

    pub fn begin_contract(&mut self, number: u32) -> Result<(), Fault>
        ensures { Begins self.old number result self.new }
    {
        if self.year.is_none() {
            return Err(Cause::DraftUnfit.at(number as u64));
        }
        if number == 0 {
            return Err(Cause::ContractNumberZero.at(number as u64));
        }
        if self.ledger.uses(number) {
            return Err(Cause::ContractNumberUsed.at(number as u64));
        }
        if self.ledger.contracts().is_full() {
            return Err(Cause::ContractsFull.at(number as u64));
        }
        self.ledger.begin(number);
        Ok(())
    }

    // Whether every quarter of the year was accepted.
    pub fn is_complete(&self) -> bool
        ensures { result ≡ complete self.now }
    {
        self.year
            .is_some_and(|year| self.ledger.entered() == quarters_in(year))
    }

    pub fn close(self) -> Closed<O>
        ensures { Closes self result }
    {
        Closed { last: self }
    }
}
