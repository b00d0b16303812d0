// Why a text gives no year's prices, and the message that says so.
ghost use Rattle.price_text.specs.Messages.{problem_text};
ghost use Rattle.price_text.specs.declared.problem.Problem.TheVariants.{NoMemory};
ghost use Rattle.std.specs.Prelude.{◌≡◌, Some};

use price_line::flaw::Flaw;
use std::alloc::AllocFailed;
use std::error::Error;
use std::fmt;

// Lines are numbered from 1.
#[derive(Clone, Copy, Debug, PartialEq, Eq)]
pub struct LineProblem {
    pub number: usize,
    pub flaw: Flaw,
}

#[derive(Clone, Copy, Debug, PartialEq, Eq)]
pub enum Problem {
    Line(LineProblem),
    // The number of the last line, where neither 35,040 nor 35,136 prices were found.
    NoYear(usize),
    NoMemory,
}

impl<T: Drop> From<AllocFailed<T>> for Problem {
    ghost from_gives = { λ _ problem. problem ≡ NoMemory };

    fn from(_failed: AllocFailed<T>) -> Problem {
        Self::NoMemory
    }
}

// By hand, since a derived message would promise no text.
impl fmt::Display for Problem {
    ghost output = { λ p. Some (problem_text p) };

    fn fmt<W: fmt::Write>(&self, f: &mut fmt::Formatter<W>) -> fmt::Result {
        match self {
            Problem::Line(LineProblem { number, flaw }) => write!(f, "line {number}: {flaw}"),
            Problem::NoYear(last) => {
                write!(
                    f,
                    "line {last}: the prices end, and a year has 35040 or 35136"
                )
            }
            Problem::NoMemory => write!(f, "out of memory"),
        }
    }
}

impl Error for Problem {}
