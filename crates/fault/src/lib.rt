// A refusal: which question got a no, and where.
#![tactic(auto)]

ghost use Rattle.std.specs.Prelude.{◌≡◌, Some};
ghost use Rattle.fault.specs.Text.{fault_text};

use std::error::Error;
use std::fmt;

pub mod cause;

use cause::Cause;

// The place is the plant place, the contract number or the quarter that was offered, or a byte offset in a file.
#[derive(Clone, Copy, PartialEq, Debug)]
pub struct Fault {
    pub cause: Cause,
    pub place: u64,
}

// By hand, since the text is promised: no derive has a clause for it.
impl fmt::Display for Fault {
    ghost output = { λ f. Some (fault_text f) };

    fn fmt<W: fmt::Write>(&self, f: &mut fmt::Formatter<W>) -> fmt::Result {
        let layer = self.cause.layer().code();
        let number = self.cause.number();
        let place = self.place;
        write!(f, "fault layer {layer} number {number} place {place}")
    }
}

impl Error for Fault {}
