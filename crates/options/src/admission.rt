// Whether an option takes a quarter.
ghost use Rattle.std.specs.Prelude.{◌≡◌, ◌<◌, true, Ok, Err};
ghost use Rattle.options.specs.Quarters.{allowed, taking_after};

use crate::amounts::Amounts;
use crate::settlement_option::LONGEST_YEAR;
use fault::Fault;
use fault::cause::Cause;

// Refuses amounts above the largest, and a quarter past the longest year, at the quarters taken.
pub fn admit(quarters: u32, amounts: &Amounts) -> Result<(), Fault>
    ensures answer { result ≡ taking_after quarters amounts.now }
    ensures admitted { elim result [ Ok _ ↦ (allowed amounts.now ≡ true) × (quarters < 35136) | Err _ ↦ Unit {0} ] }
{
    if !amounts.are_allowed() {
        return Err(Cause::TakenAmountTooLarge.at(quarters as u64));
    }
    if quarters >= LONGEST_YEAR {
        return Err(Cause::OptionFull.at(quarters as u64));
    }
    Ok(())
}
