// A year's prices with a run length for each regime, as a value calendar.
ghost use Rattle.std.specs.Prelude.{◌≡◌, not, Decides, slice_index_or};
ghost use Rattle.price_rule.specs.Prices.{price_span, zero_valued, RunAround};

use crate::runs::{negative_at_end, negative_at_start};
use calendar::value_calendar::{REGIMES, ValueCalendar, admit};
use fault::Fault;

// The quarter hours of 365 and of 366 days.
pub const COMMON_YEAR: usize = 35_040;

pub const LEAP_YEAR: usize = 35_136;

// Prices in hundredths of a euro per MWh, and how many negative prices in a row make a regime's value zero.
#[derive(Clone, Copy)]
pub struct PriceRule<'a> {
    prices: &'a [i32],
    run_lengths: [u16; REGIMES],
}

impl<'a> PriceRule<'a> {
    // Takes any number of prices: where they are no year's, the span is 0 and every quarter is refused.
    pub fn new(prices: &'a [i32], run_lengths: [u16; REGIMES]) -> PriceRule<'a>
        ensures prices { result.prices.now ≡ prices.now }
        ensures runs { result.run_lengths ≡ run_lengths }
    {
        PriceRule {
            prices,
            run_lengths,
        }
    }

    // An unknown regime has the run length 0, by which no quarter is zero-valued.
    fn run_length(&self, regime: u8) -> usize
        ensures { result ≡ slice_index_or self.now.run_lengths regime 0 }
    {
        self.run_lengths.get(regime as usize).copied().unwrap_or(0) as usize
    }

    // Whether an unbroken run of negative prices, at least as long as the regime's run length, contains the quarter.
    pub fn is_zero_valued(&self, regime: u8, quarter: u32) -> bool
        ensures value { result ≡ zero_valued self.now.prices.now (slice_index_or self.now.run_lengths regime 0) quarter }
        ensures told { Decides result (RunAround self.now.prices.now (slice_index_or self.now.run_lengths regime 0) quarter) }
    {
        let run = self.run_length(regime);
        let after = quarter as usize + 1;
        if run == 0 || after > self.prices.len() {
            return false;
        }
        let (until, later) = self.prices.split_at(after);
        let before = negative_at_end(&until[after.saturating_sub(run)..]);
        if before == 0 {
            return false;
        }
        before + negative_at_start(&later[..later.len().min(run - before)]) == run
    }

    fn span(&self) -> u32
        ensures { result ≡ price_span self.now.prices.now }
    {
        match self.prices.len() {
            COMMON_YEAR => COMMON_YEAR as u32,
            LEAP_YEAR => LEAP_YEAR as u32,
            _ => 0,
        }
    }
}

impl<'a> ValueCalendar for PriceRule<'a> {
    ghost span = { λ c. price_span c.prices.now };

    ghost above = { λ c regime quarter. not (zero_valued c.prices.now (slice_index_or c.run_lengths regime 0) quarter) };

    fn above_zero(&self, regime: u8, quarter: u32) -> Result<bool, Fault> {
        admit(self.span(), regime, quarter)?;
        Ok(!self.is_zero_valued(regime, quarter))
    }
}
