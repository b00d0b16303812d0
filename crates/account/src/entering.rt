// How a quarter is entered: the calendar marks the plants, the option takes the quarter, the ledger books the draw.
ghost use Rattle.std.specs.Prelude.{◌≡◌, true};
ghost use Rattle.account.specs.Calls.{marking, Enters};

use crate::year::Opened;
use calendar::value_calendar::ValueCalendar;
use fault::Fault;
use fault::cause::Cause;
use options::amounts::Amounts;
use options::settlement_option::{PLACES, SettlementOption};
use site::register::Register;
use site::year::quarters_in;

// For each plant in turn, what the calendar says of its regime. By place: of a loop over borrowed marks, zipped with the plants, no proof knows what it wrote.
fn marks_of<C: ValueCalendar>(
    register: &Register,
    calendar: &C,
    quarter: u32,
) -> Result<[bool; PLACES], Fault>
    ensures { result ≡ marking C.ValueCalendar calendar.now register.now quarter }
{
    let mut marks = [false; PLACES];
    for (place, plant) in register.plants().iter().enumerate() {
        marks[place] = calendar.above_zero(plant.regime, quarter)?;
    }
    Ok(marks)
}

impl<O: SettlementOption> Opened<O> {
    pub fn enter_quarter<C: ValueCalendar>(
        &mut self,
        calendar: &C,
        quarter: u32,
        amounts: Amounts,
    ) -> Result<(), Fault>
        ensures { Enters O.SettlementOption C.ValueCalendar calendar.now self.old quarter amounts result self.new }
    {
        let place = quarter as u64;
        let Some(year) = self.year else {
            return Err(Cause::DraftUnfit.at(place));
        };
        if self.ledger.contracts().is_empty() {
            return Err(Cause::NoContract.at(place));
        }
        if quarter != self.ledger.entered() || quarter >= quarters_in(year) {
            return Err(Cause::NotNextQuarter.at(place));
        }
        if !amounts.are_allowed() {
            return Err(Cause::AmountTooLarge.at(place));
        }
        let marks = marks_of(self.draft.register(), calendar, quarter)?;
        self.option.take(amounts, marks)?;
        self.ledger.book(amounts.draw);
        Ok(())
    }
}
