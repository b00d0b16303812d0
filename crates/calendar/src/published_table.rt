// The published table of values: for each regime in turn a row of bits, one for each quarter.
ghost use Rattle.std.specs.Prelude.{◌≡◌};
ghost use Rattle.calendar.specs.Tables.{table_span, table_above};

use crate::value_calendar::{REGIMES, ValueCalendar, admit};
use fault::Fault;

// The quarter hours of 366 days.
const QUARTERS: u32 = 35_136;

// Eight quarters to a byte.
pub const ROW_BYTES: usize = 4_392;

pub const TABLE_BYTES: usize = REGIMES * ROW_BYTES;

#[derive(Clone, Copy)]
pub struct PublishedTable<'a> {
    bytes: &'a [u8],
}

impl<'a> PublishedTable<'a> {
    // Takes bytes of any length: where they are no table, the span is 0 and every quarter is refused.
    pub fn new(bytes: &'a [u8]) -> PublishedTable<'a>
        ensures { result.bytes.now ≡ bytes.now }
    {
        PublishedTable { bytes }
    }

    fn span(&self) -> u32
        ensures { result ≡ table_span self.now.bytes.now }
    {
        if self.bytes.len() == TABLE_BYTES {
            QUARTERS
        } else {
            0
        }
    }
}

impl<'a> ValueCalendar for PublishedTable<'a> {
    ghost span = { λ t. table_span t.bytes.now };

    ghost above = { λ t. table_above t.bytes.now };

    fn above_zero(&self, regime: u8, quarter: u32) -> Result<bool, Fault> {
        admit(self.span(), regime, quarter)?;
        let byte = self.bytes[regime as usize * ROW_BYTES + quarter as usize / 8];
        Ok(byte >> (quarter % 8) & 1 == 1)
    }
}
