// A value calendar, by what it means: a span, and the pairs of regime and quarter with a value above zero.
ghost use Rattle.std.specs.Prelude.{◌≡◌, ℕ, ◌<◌, ◌≤◌, Bool, OnOk};
ghost use Rattle.calendar.specs.Calendars.{answered, admitted};

use fault::Fault;
use fault::cause::Cause;

// Regimes are numbers and no enum, since the rules number them and calendars count their rows by them: from 0 to this.
pub const LAST_REGIME: u8 = 7;

pub const REGIMES: usize = LAST_REGIME as usize + 1;

pub trait ValueCalendar {
    ghost span: { Self → ℕ };

    ghost above: { Self → ℕ → ℕ → Bool };

    // Whether the value under the regime is above zero in the quarter.
    fn above_zero(&self, regime: u8, quarter: u32) -> Result<bool, Fault>
        ensures { result ≡ answered (span self.now) (above self.now) regime quarter };
}

// Refuses a quarter from the span on, and then an unknown regime: what every calendar asks first.
pub fn admit(span: u32, regime: u8, quarter: u32) -> Result<(), Fault>
    ensures answer { result ≡ admitted span regime quarter }
    ensures known { OnOk result ((quarter < span) × (regime ≤ 7)) }
{
    if quarter >= span {
        return Err(Cause::QuarterPastSpan.at(quarter as u64));
    }
    if regime > LAST_REGIME {
        return Err(Cause::RegimeUnknown.at(quarter as u64));
    }
    Ok(())
}
