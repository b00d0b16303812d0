// A file being settled: pieces of it come in, and each record is put to the account once it is held whole.
ghost use Rattle.std.specs.Prelude.{◌≡◌};
ghost use Rattle.settlement.specs.Progress.{open_still, Steps};
ghost use Rattle.settlement.specs.Settling.{placed, StepsOn, Ends, Keeps, WantsMore, StartsInAny, TakesAnyPiece, AnswersForAny, StartsIn, TakesPiece, AnswersFor};

use calendar::published_table::PublishedTable;
use fault::Fault;
use fault::cause::Cause;
use file_account::chosen::Chosen;
use statement::Statement;
use tagged_file::order::Order;
use tagged_file::record::Record;
use window::Window;

// The outcome is none while the file is open.
#[derive(Drop)]
pub struct Settlement<'t> {
    table: PublishedTable<'t>,
    window: Window,
    order: Order,
    account: Option<Chosen>,
    outcome: Option<Result<Statement, Fault>>,
}

// What the account answers to a record, with the record's offset as the place of a fault.
fn placed(answer: Result<(), Fault>, offset: u64) -> Result<(), Fault>
    ensures { result ≡ placed offset answer }
{
    answer.map_err(|fault| fault.cause.at(offset))
}

// Where a settlement stands in a file is said twice of each call and kept in no type: it is a fact about the file that the caller knows.
impl<'t> Settlement<'t> {
    pub fn new(table: PublishedTable<'t>) -> Settlement<'t>
        ensures any { StartsInAny table.entry result }
        ensures told { StartsIn table.entry result }
    {
        Settlement {
            table,
            window: Window::new(),
            order: Order::new(),
            account: None,
            outcome: None,
        }
    }

    // Whether what is still to come can change the outcome.
    pub fn is_open(&self) -> bool
        ensures { result ≡ open_still self.now.outcome }
    {
        self.outcome.is_none()
    }

    // Takes in the next piece of the file. What is held whole is settled first, so that there is room.
    pub fn feed(&mut self, piece: &[u8])
        ensures any { TakesAnyPiece self.old piece.now self.new }
        ensures told { TakesPiece self.old piece.now self.new }
    {
        let mut rest = piece;
        while self.is_open() && !rest.is_empty() {
            self.advance();
            let taken = self.window.feed(rest);
            rest = &rest[taken..];
        }
    }

    // The file has no more: what it comes to.
    pub fn finish(mut self) -> Result<Statement, Fault>
        ensures any { AnswersForAny self.entry result }
        ensures told { AnswersFor self.entry result }
    {
        self.window.finish();
        self.advance();
        self.outcome.unwrap()
    }

    // Settles the records that are held whole.
    fn advance(&mut self)
        ensures keeps { Keeps self.old self.new }
        ensures wants_more { WantsMore self.new }
    {
        while self.is_open() && self.window.is_ready() {
            if let Err(fault) = self.step() {
                self.outcome = Some(Err(fault));
            }
        }
    }

    // Settles the record at the front of the window, and passes it.
    fn step(&mut self) -> Result<(), Fault>
        ensures less { Steps self.old result self.new }
        ensures onward { StepsOn self.old result self.new }
    {
        let offset = self.window.offset();
        let (record, size) = self.window.record()?;
        self.order.allow(record.tag(), offset)?;
        if let Record::End = record {
            return self.end(offset, size);
        }
        placed(Chosen::put(&mut self.account, &self.table, &record), offset)?;
        self.window.pass(size);
        Ok(())
    }

    // The end record: nothing may follow it, and the account gives its statement.
    fn end(&mut self, offset: u64, size: usize) -> Result<(), Fault>
        ensures less { Steps self.old result self.new }
        ensures ends { Ends self.old offset size result self.new }
    {
        if self.window.held().len() > size {
            return Err(Cause::BytesAfterEnd.at(offset.saturating_add(size as u64)));
        }
        let mut statement = Statement::blank();
        placed(Chosen::settle(self.account.take(), &mut statement), offset)?;
        self.outcome = Some(Ok(statement));
        Ok(())
    }
}
