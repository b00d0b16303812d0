// The line with the run lengths: the word runs, and then for each regime in turn a space and a number.
ghost use Rattle.std.specs.Prelude.{◌≡◌, Ok, Err};
ghost use Rattle.std.specs.Result.{MatchResult};
ghost use Rattle.price_line.specs.RunLengths.{field, field_of, run_lengths_of};

use crate::digits::leading_number;
use crate::flaw::Flaw;
use calendar::value_calendar::REGIMES;

// The run length after a space, and what stands after its number.
fn leading_run_length(text: &[u8]) -> Result<(u16, &[u8]), Flaw>
    ensures { MatchResult result (λ read. field_of text.now ≡ Ok (field read.0 read.1.now)) (λ flaw. field_of text.now ≡ Err flaw) }
{
    let [b' ', number @ ..] = text else {
        return Err(Flaw::NoRunLengths);
    };
    let (length, rest) = leading_number(number).ok_or(Flaw::NoRunLengths)?;
    let length = u16::try_from(length).map_err(|_| Flaw::RunLengthTooLarge)?;
    Ok((length, rest))
}

// The run lengths that a line spells.
pub fn run_lengths(line: &[u8]) -> Result<[u16; REGIMES], Flaw>
    ensures { result ≡ run_lengths_of line.now }
{
    let mut rest = line.strip_prefix(b"runs").ok_or(Flaw::NoRunLengths)?;
    let mut lengths = [0; REGIMES];
    for length in &mut lengths {
        (*length, rest) = leading_run_length(rest)?;
    }
    if !rest.is_empty() {
        return Err(Flaw::NoRunLengths);
    }
    Ok(lengths)
}
