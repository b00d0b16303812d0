// What can be wrong with a line of the text, and the words for it.
ghost use Rattle.price_line.specs.Messages.{flaw_text};
ghost use Rattle.std.specs.Prelude.{Some};

use std::error::Error;
use std::fmt;

#[derive(Clone, Copy, Debug, PartialEq, Eq)]
pub enum Flaw {
    NoPrice,
    PriceTooLarge,
    NoRunLengths,
    RunLengthTooLarge,
}

// By hand, since a derived message promises no text.
impl fmt::Display for Flaw {
    ghost output = { λ f. Some (flaw_text f) };

    fn fmt<W: fmt::Write>(&self, f: &mut fmt::Formatter<W>) -> fmt::Result {
        match self {
            Flaw::NoPrice => write!(f, "no price"),
            Flaw::PriceTooLarge => write!(f, "price beyond 21474836.47"),
            Flaw::NoRunLengths => write!(f, "not the word runs and eight numbers"),
            Flaw::RunLengthTooLarge => write!(f, "run length above 65535"),
        }
    }
}

impl Error for Flaw {}
