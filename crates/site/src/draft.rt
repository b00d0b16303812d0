// The draft of a year account: a site begins here, empty.
ghost use Rattle.std.specs.Prelude.{◌≡◌};
ghost use Rattle.site.specs.Drafts.{Blank, Sets, AddsPlant, fitness};

use crate::plant::{Kind, PlantEntry};
use crate::register::Register;
use crate::year::is_settleable;
use fault::Fault;
use fault::cause::Cause;
use options::settlement_option::SettlementOption;

#[derive(Drop)]
pub struct Draft {
    year: Option<u16>,
    register: Register,
}

impl Draft {
    pub fn new() -> Draft
        ensures { Blank result }
    {
        Draft {
            year: None,
            register: Register::new(),
        }
    }

    // The latest year that was set counts.
    pub fn set_year(&mut self, year: u16) -> Result<(), Fault>
        ensures { Sets self.old year result self.new }
    {
        if !is_settleable(year) {
            return Err(Cause::YearOutOfRange.at(0));
        }
        self.year = Some(year);
        Ok(())
    }

    // The plant takes the next free place.
    pub fn add_plant(&mut self, entry: PlantEntry) -> Result<(), Fault>
        ensures { AddsPlant self.old entry result self.new }
    {
        self.register.add(entry)
    }

    // Whether the draft can be settled under an option. Plug-in power does not count toward the option's limit.
    pub fn check_fitness<O: SettlementOption>(&self) -> Result<(), Fault>
        ensures { result ≡ fitness O.SettlementOption.limit self.now }
    {
        if self.year.is_none() {
            return Err(Cause::YearNotSet.at(0));
        }
        if !self.register.has_supported() {
            return Err(Cause::NoSupportedPlant.at(0));
        }
        if self.register.kind_power(Kind::Ordinary) > O::limit() {
            return Err(Cause::OrdinaryPowerExceeded.at(0));
        }
        Ok(())
    }

    pub fn year(&self) -> Option<u16>
        ensures { result ≡ self.now.year }
    {
        self.year
    }

    pub fn register(&self) -> &Register
        ensures { result.now ≡ self.now.register }
    {
        &self.register
    }
}
