// The account under the option that a file's year record names.
ghost use Rattle.file_account.specs.Choosing.{NamesOption, BeforeYear, ChosenPuts, ChosenSettles};
ghost use Rattle.tagged_file.specs.Format.{tag_in, content_in};

use crate::account_of_file::AccountOfFile;
use calendar::value_calendar::ValueCalendar;
use delimitation::DelimitationOption;
use fault::Fault;
use fault::cause::Cause;
use flat::FlatOption;
use statement::Statement;
use tagged_file::number::{byte, number16};
use tagged_file::record::Record;

// The bytes that name the options in a year record. Constants and no enum: what a byte names is a case of `Chosen` at once.
const FLAT: u8 = 0;

const DELIMITATION: u8 = 1;

#[derive(Drop)]
pub enum Chosen {
    Flat(AccountOfFile<FlatOption>),
    Delimitation(AccountOfFile<DelimitationOption>),
}

// Only remarks stand before the year.
fn before_the_year(record: &Record) -> Result<(), Fault>
    ensures { BeforeYear (tag_in «record».now) result }
{
    match record {
        Record::Remark(_) => Ok(()),
        _ => Err(Cause::OutOfOrder.at(0)),
    }
}

impl Chosen {
    // The option byte is asked before the year.
    fn of_year(content: &[u8]) -> Result<Chosen, Fault>
        ensures { NamesOption content.now result }
    {
        let year = number16(content, 0);
        match byte(content, 2) {
            FLAT => AccountOfFile::of_year(year).map(Chosen::Flat),
            DELIMITATION => AccountOfFile::of_year(year).map(Chosen::Delimitation),
            _ => Err(Cause::OptionUnknown.at(0)),
        }
    }

    // Puts a record other than the end to a file's account, of which there is none before the year record.
    // The account is moved out and back in, since a pattern that lends a part of a variant which holds an enum of structs with invariants has no proof.
    pub fn put<C: ValueCalendar>(
        account: &mut Option<Chosen>,
        calendar: &C,
        record: &Record,
    ) -> Result<(), Fault>
        ensures { ChosenPuts C.ValueCalendar calendar.now account.old (tag_in «record».now) (content_in «record».now) result account.new }
    {
        if let Record::Year(content) = record {
            *account = Some(Chosen::of_year(content)?);
            return Ok(());
        }
        let Some(chosen) = account.take() else {
            return before_the_year(record);
        };
        // Two arms alike, here and in `settle`: what could be one is a boxed account, and no heap is used here.
        match chosen {
            Chosen::Flat(mut flat) => {
                let answer = flat.put(calendar, record);
                *account = Some(Chosen::Flat(flat));
                answer
            }
            Chosen::Delimitation(mut delimitation) => {
                let answer = delimitation.put(calendar, record);
                *account = Some(Chosen::Delimitation(delimitation));
                answer
            }
        }
    }

    // The statement at the end of the file, into the caller's, which a refusal leaves as it was.
    pub fn settle(account: Option<Chosen>, statement: &mut Statement) -> Result<(), Fault>
        ensures { ChosenSettles account result statement.old statement.new }
    {
        match account.ok_or(Cause::OutOfOrder.at(0))? {
            Chosen::Flat(account) => account.settle(statement),
            Chosen::Delimitation(account) => account.settle(statement),
        }
    }
}
