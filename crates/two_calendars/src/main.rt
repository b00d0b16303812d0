// The price rule and the published table of the same year, asked the same questions.
#![tactic(auto)]

use anyhow::anyhow;
use calendar::published_table::PublishedTable;
use calendar::value_calendar::{LAST_REGIME, ValueCalendar};
use price_rule::price_rule::{COMMON_YEAR, PriceRule};
use price_text::text::{PriceText, read_text};
use std::fs;

#[derive(Clone, Copy)]
struct Tally {
    pairs: u32,
    differ: u32,
    above: u32,
}

// Puts every regime and every quarter of 365 days to both calendars.
fn compare<A: ValueCalendar, B: ValueCalendar>(a: &A, b: &B) -> Tally {
    let mut tally = Tally {
        pairs: 0,
        differ: 0,
        above: 0,
    };
    for regime in 0..=LAST_REGIME {
        for quarter in 0..COMMON_YEAR as u32 {
            tally.pairs = tally.pairs.saturating_add(1);
            match (a.above_zero(regime, quarter), b.above_zero(regime, quarter)) {
                (Ok(true), Ok(true)) => tally.above = tally.above.saturating_add(1),
                (Ok(false), Ok(false)) => {}
                _ => tally.differ = tally.differ.saturating_add(1),
            }
        }
    }
    tally
}

fn main(rt: HostRuntime) -> anyhow::Result<()> {
    let text = fs::read(&rt, "prices.txt")?;
    let table = fs::read(&rt, "calendar.bin")?;
    let PriceText {
        run_lengths,
        prices,
    } = match read_text(&text, rt.alloc()) {
        Ok(read) => read,
        Err(problem) => {
            println!(rt; "{problem}")?;
            return Err(anyhow!("no prices"));
        }
    };
    let Tally {
        pairs,
        differ,
        above,
    } = compare(
        &PriceRule::new(&prices, run_lengths),
        &PublishedTable::new(&table),
    );
    println!(rt; "{pairs} pairs, {differ} differ, {above} above zero")?;
    Ok(())
}
