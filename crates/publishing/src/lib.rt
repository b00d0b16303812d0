// The published table of a year's prices, from their text.
#![tactic(auto)]

ghost use Rattle.publishing.specs.Published.{Published};

use calendar::published_table::TABLE_BYTES;
use price_rule::price_rule::PriceRule;
use price_text::problem::Problem;
use price_text::text::{PriceText, read_text};
use std::alloc::Global;
use table_of_values::table_of;

pub fn published(text: &[u8], heap: Global) -> Result<[u8; TABLE_BYTES], Problem>
    ensures { Published text.now result }
{
    let PriceText {
        run_lengths,
        prices,
    } = read_text(text, heap)?;
    Ok(table_of(&PriceRule::new(&prices, run_lengths)))
}
