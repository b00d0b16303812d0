// What was wrong: one case for each question of each layer that can get a no.
ghost use Rattle.std.specs.Prelude.{◌≡◌};
ghost use Rattle.fault.specs.Causes.{code, layer, number};

use crate::Fault;

// The part of the software that asked.
#[derive(Clone, Copy, PartialEq, Debug)]
pub enum Layer {
    File,
    Register,
    Account,
    Option,
    Calendar,
}

#[derive(Clone, Copy, PartialEq, Debug)]
pub enum Cause {
    // The register: setting the year, adding a plant, fitness.
    YearOutOfRange,
    RegisterFull,
    PowerOutOfRange,
    PlantCodeUnknown,
    PlugInPowerExceeded,
    SitePowerExceeded,
    YearNotSet,
    NoSupportedPlant,
    OrdinaryPowerExceeded,
    // The account: contracts, quarters, statements.
    DraftUnfit,
    ContractNumberZero,
    ContractNumberUsed,
    ContractsFull,
    NoContract,
    NotNextQuarter,
    AmountTooLarge,
    YearIncomplete,
    // A settlement option, taking a quarter.
    TakenAmountTooLarge,
    OptionFull,
    // A value calendar.
    QuarterPastSpan,
    RegimeUnknown,
    // The tagged file.
    HeaderCutOff,
    ContentCutOff,
    TagUnknown,
    LengthWrong,
    OutOfOrder,
    BytesAfterEnd,
    OptionUnknown,
}

// Named methods and no `From`, here and below: a cause has two numbers, and a conversion would not say which.
impl Layer {
    // The number that stands for the layer in print.
    pub fn code(self) -> u8
        ensures { result ≡ code self }
    {
        match self {
            Layer::File => 1,
            Layer::Register => 2,
            Layer::Account => 3,
            Layer::Option => 4,
            Layer::Calendar => 5,
        }
    }
}

impl Cause {
    pub fn layer(self) -> Layer
        ensures { result ≡ layer self }
    {
        match self {
            Cause::YearOutOfRange
            | Cause::RegisterFull
            | Cause::PowerOutOfRange
            | Cause::PlantCodeUnknown
            | Cause::PlugInPowerExceeded
            | Cause::SitePowerExceeded
            | Cause::YearNotSet
            | Cause::NoSupportedPlant
            | Cause::OrdinaryPowerExceeded => Layer::Register,
            Cause::DraftUnfit
            | Cause::ContractNumberZero
            | Cause::ContractNumberUsed
            | Cause::ContractsFull
            | Cause::NoContract
            | Cause::NotNextQuarter
            | Cause::AmountTooLarge
            | Cause::YearIncomplete => Layer::Account,
            Cause::TakenAmountTooLarge | Cause::OptionFull => Layer::Option,
            Cause::QuarterPastSpan | Cause::RegimeUnknown => Layer::Calendar,
            Cause::HeaderCutOff
            | Cause::ContentCutOff
            | Cause::TagUnknown
            | Cause::LengthWrong
            | Cause::OutOfOrder
            | Cause::BytesAfterEnd
            | Cause::OptionUnknown => Layer::File,
        }
    }

    // The number of the question that got a no.
    pub fn number(self) -> u8
        ensures { result ≡ number self }
    {
        match self {
            Cause::YearOutOfRange => 11,
            Cause::RegisterFull => 12,
            Cause::PowerOutOfRange => 13,
            Cause::PlantCodeUnknown => 14,
            Cause::PlugInPowerExceeded => 15,
            Cause::SitePowerExceeded => 16,
            Cause::YearNotSet => 17,
            Cause::NoSupportedPlant => 18,
            Cause::OrdinaryPowerExceeded => 19,
            Cause::DraftUnfit => 21,
            Cause::ContractNumberZero => 22,
            Cause::ContractNumberUsed => 23,
            Cause::ContractsFull => 24,
            Cause::NoContract => 25,
            Cause::NotNextQuarter => 26,
            Cause::AmountTooLarge | Cause::TakenAmountTooLarge => 27,
            Cause::QuarterPastSpan => 28,
            Cause::YearIncomplete => 29,
            Cause::OptionFull => 30,
            Cause::RegimeUnknown => 31,
            Cause::HeaderCutOff => 41,
            Cause::ContentCutOff => 42,
            Cause::TagUnknown => 43,
            Cause::LengthWrong => 44,
            Cause::OutOfOrder => 45,
            Cause::BytesAfterEnd => 46,
            Cause::OptionUnknown => 47,
        }
    }

    // The refusal for this cause at a place.
    pub fn at(self, place: u64) -> Fault
        ensures { result ≡ record { cause = self; place = place } }
    {
        Fault { cause: self, place }
    }
}
