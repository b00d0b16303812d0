// A year's prices with the run lengths, read from a text.
ghost use Rattle.price_text.specs.Texts.{PricesRead, TextRead};

use crate::line::Lines;
use crate::problem::{LineProblem, Problem};
use calendar::value_calendar::REGIMES;
use price_line::price::price;
use price_line::run_lengths::run_lengths;
use price_rule::price_rule::{COMMON_YEAR, LEAP_YEAR};
use std::alloc::Global;

// Prices in hundredths of a euro per MWh.
#[derive(Drop)]
pub struct PriceText {
    pub run_lengths: [u16; REGIMES],
    pub prices: Vec<i32>,
}

// The prices of the lines after the first.
fn prices_of(lines: Lines, heap: Global) -> Result<Vec<i32>, Problem>
    ensures { PricesRead lines.entry.rest.now result }
{
    let mut prices = Vec::new(heap);
    for (index, line) in lines.enumerate() {
        let number = index + 2;
        let price = price(line).map_err(|flaw| Problem::Line(LineProblem { number, flaw }))?;
        prices.push(price)?;
    }
    Ok(prices)
}

// The run lengths and the prices that a text spells, if these are a year's.
pub fn read_text(text: &[u8], heap: Global) -> Result<PriceText, Problem>
    ensures { TextRead text.now result }
{
    let mut lines = Lines::new(text);
    // A text with no line has no run lengths either.
    let first = lines.next().unwrap_or(&[]);
    let run_lengths = run_lengths(first).map_err(|flaw| Problem::Line(LineProblem {
        number: 1,
        flaw,
    }))?;
    let prices = prices_of(lines, heap)?;
    let count = prices.len();
    if count != COMMON_YEAR && count != LEAP_YEAR {
        return Err(Problem::NoYear(count + 1));
    }
    Ok(PriceText {
        run_lengths,
        prices,
    })
}
