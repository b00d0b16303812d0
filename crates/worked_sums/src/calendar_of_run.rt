// A calendar in which every value is above zero up to a quarter, and zero from there on.
ghost use Rattle.std.specs.Prelude.{nat_lt};

use calendar::value_calendar::{ValueCalendar, admit};
use fault::Fault;

#[derive(Clone, Copy)]
pub struct AboveZeroUntil {
    pub quarter: u32,
}

const SPAN: u32 = 35_136;

impl ValueCalendar for AboveZeroUntil {
    ghost span = { λ _. 35136 };

    ghost above = { λ c _ quarter. nat_lt quarter c.quarter };

    fn above_zero(&self, regime: u8, quarter: u32) -> Result<bool, Fault> {
        admit(SPAN, regime, quarter)?;
        Ok(quarter < self.quarter)
    }
}
