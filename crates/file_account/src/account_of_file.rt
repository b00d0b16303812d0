// The account as far as its file has come, under one option.
ghost use Rattle.file_account.specs.Putting.{OpensIn, AddsIn, BeginsIn, BeginsOpened, EntersIn, Puts, BeginsYear, SettlesIn};
ghost use Rattle.tagged_file.specs.Format.{tag_in, content_in};

use crate::content::{amounts_offered, plant_offered};
use account::year::Opened;
use balance::{final_statement, interim_statement};
use calendar::published_table::PublishedTable;
use calendar::value_calendar::ValueCalendar;
use fault::Fault;
use fault::cause::Cause;
use options::amounts::Amounts;
use options::settlement_option::SettlementOption;
use site::draft::Draft;
use site::plant::PlantEntry;
use statement::Statement;
use std::mem::replace;
use tagged_file::number::{number16, number32};
use tagged_file::record::Record;

#[derive(Drop)]
pub enum AccountOfFile<O> {
    Draft(Draft),
    Opened(Opened<O>),
}

impl<O: SettlementOption + Drop> AccountOfFile<O> {
    // The account that a year record begins.
    pub(crate) fn of_year(year: u16) -> Result<AccountOfFile<O>, Fault>
        ensures { BeginsYear O.SettlementOption year result }
    {
        let mut draft = Draft::new();
        draft.set_year(year)?;
        Ok(AccountOfFile::Draft(draft))
    }

    // At the first contract the draft's fitness is checked and the year is opened.
    fn open(&mut self) -> Result<(), Fault>
        ensures { OpensIn O.SettlementOption self.old result self.new }
    {
        if let AccountOfFile::Draft(draft) = self {
            draft.check_fitness::<O>()?;
            let draft = replace(draft, Draft::new());
            *self = AccountOfFile::Opened(Opened::open(draft));
        }
        Ok(())
    }

    fn add_plant(&mut self, entry: PlantEntry) -> Result<(), Fault>
        ensures { AddsIn O.SettlementOption self.old entry result self.new }
    {
        match self {
            AccountOfFile::Draft(draft) => draft.add_plant(entry),
            AccountOfFile::Opened(_) => Err(Cause::OutOfOrder.at(0)),
        }
    }

    fn begin_contract(&mut self, number: u32) -> Result<(), Fault>
        ensures { BeginsIn O.SettlementOption self.old number result self.new }
    {
        self.open()?;
        self.begin_opened(number)
    }

    fn begin_opened(&mut self, number: u32) -> Result<(), Fault>
        ensures { BeginsOpened O.SettlementOption self.old number result self.new }
    {
        match self {
            AccountOfFile::Opened(year) => year.begin_contract(number),
            AccountOfFile::Draft(_) => Err(Cause::OutOfOrder.at(0)),
        }
    }

    fn enter_quarter<C: ValueCalendar>(
        &mut self,
        calendar: &C,
        quarter: u32,
        amounts: Amounts,
    ) -> Result<(), Fault>
        ensures { EntersIn O.SettlementOption C.ValueCalendar calendar.now self.old quarter amounts result self.new }
    {
        match self {
            AccountOfFile::Opened(year) => year.enter_quarter(calendar, quarter, amounts),
            AccountOfFile::Draft(_) => Err(Cause::OutOfOrder.at(0)),
        }
    }

    // Puts a record to the account. A record that the account's state has no call for is out of order.
    pub(crate) fn put<C: ValueCalendar>(
        &mut self,
        calendar: &C,
        record: &Record,
    ) -> Result<(), Fault>
        ensures { Puts O.SettlementOption C.ValueCalendar calendar.now self.old (tag_in «record».now) (content_in «record».now) result self.new }
    {
        match *record {
            Record::Plant(content) => self.add_plant(plant_offered(content)),
            Record::Contract(content) => self.begin_contract(number32(content, 0)),
            Record::Quarter(content) => self.enter_quarter(
                calendar,
                u32::from(number16(content, 0)),
                amounts_offered(content),
            ),
            Record::Remark(_) => Ok(()),
            Record::Year(_) | Record::End => Err(Cause::OutOfOrder.at(0)),
        }
    }

    // The final statement of a complete year, otherwise the interim one, into the caller's, which a refusal leaves as it was.
    pub(crate) fn settle(self, statement: &mut Statement) -> Result<(), Fault>
        ensures { SettlesIn O.SettlementOption self result statement.old statement.new }
    {
        match self {
            AccountOfFile::Opened(year) => {
                if year.is_complete() {
                    final_statement::<O, PublishedTable<'_>>(&year.close(), statement)
                } else {
                    interim_statement::<O, PublishedTable<'_>>(&year, statement)
                }
            }
            AccountOfFile::Draft(_) => Err(Cause::OutOfOrder.at(0)),
        }
    }
}
