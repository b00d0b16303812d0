// A line with a price in euros per MWh: an optional minus sign, digits, and optionally a point with one or two digits.
ghost use Rattle.std.specs.Prelude.{◌≡◌, ◌^◌, ◌<◌, IfOk};
ghost use Rattle.price_line.specs.Prices.{hundredths_of, amount_of, price_of};

use crate::digits::leading_number;
use crate::flaw::Flaw;

// In hundredths of a euro, with either sign.
const LARGEST: u64 = 2_147_483_647;

// What stands after the whole euros, in hundredths: nothing, or a point with one or two digits.
fn hundredths(text: &[u8]) -> Option<u32>
    ensures { result ≡ hundredths_of text.now }
{
    match text {
        [] => Some(0),
        [b'.', tenths @ b'0'..=b'9'] => Some(u32::from(tenths - b'0') * 10),
        [b'.', tenths @ b'0'..=b'9', rest @ b'0'..=b'9'] => {
            Some(u32::from(tenths - b'0') * 10 + u32::from(rest - b'0'))
        }
        _ => None,
    }
}

fn amount(text: &[u8]) -> Result<u32, Flaw>
    ensures value { result ≡ amount_of text.now }
    ensures small { IfOk result (λ amount. amount < 2 ^ 31) }
{
    let (euros, rest) = leading_number(text).ok_or(Flaw::NoPrice)?;
    let hundredths = hundredths(rest).ok_or(Flaw::NoPrice)?;
    let amount = u64::from(euros) * 100 + u64::from(hundredths);
    if amount > LARGEST {
        return Err(Flaw::PriceTooLarge);
    }
    Ok(amount as u32)
}

// The price that a line spells, in hundredths of a euro per MWh.
pub fn price(line: &[u8]) -> Result<i32, Flaw>
    ensures { result ≡ price_of line.now }
{
    match line {
        [b'-', rest @ ..] => Ok(-(amount(rest)? as i32)),
        _ => Ok(amount(line)? as i32),
    }
}
