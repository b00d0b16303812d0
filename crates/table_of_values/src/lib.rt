// Any value calendar written as a published table.
#![tactic(auto)]

ghost use Rattle.std.specs.Prelude.{◌≡◌, ◌*◌, ◌/◌, ◌%◌, ◌<◌, ◌≤◌};
ghost use Rattle.table_of_values.specs.Writing.{marked, Marks, Table};

use calendar::published_table::{ROW_BYTES, TABLE_BYTES};
use calendar::value_calendar::ValueCalendar;

// A quarter that the calendar does not know is not above zero.
fn is_marked<C: ValueCalendar>(calendar: &C, regime: u8, quarter: u32) -> bool
    requires { regime ≤ 7 }
    ensures { result ≡ marked C.ValueCalendar calendar.now regime quarter }
{
    calendar.above_zero(regime, quarter).unwrap_or(false)
}

// The byte at a place of the table: eight quarters of a regime, the first in the lowest bit.
fn byte_at<C: ValueCalendar>(calendar: &C, place: usize) -> u8
    requires { place < TABLE_BYTES }
    ensures { Marks C.ValueCalendar calendar.now (place / ROW_BYTES) (place % ROW_BYTES * 8) result }
{
    let regime = (place / ROW_BYTES) as u8;
    let first = (place % ROW_BYTES) as u32 * 8;
    let mut byte = 0;
    // Over the numbers of the bits, which is what each iteration needs.
    for bit in 0..8 {
        if is_marked(calendar, regime, first + bit) {
            byte |= 1 << bit;
        }
    }
    byte
}

pub fn table_of<C: ValueCalendar>(calendar: &C) -> [u8; TABLE_BYTES]
    ensures { Table C.ValueCalendar calendar.now result }
{
    let mut table = [0; TABLE_BYTES];
    for (place, byte) in table.iter_mut().enumerate() {
        *byte = byte_at(calendar, place);
    }
    table
}
