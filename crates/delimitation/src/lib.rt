// The delimitation option: what it holds.
#![tactic(auto)]

ghost use Rattle.std.specs.Prelude.{ℕ, ◌+◌, ◌*◌, ◌≤◌, slice_index_or};

use options::settlement_option::PLACES;
use options::taken::Taken;

// In Wh. The marked sums are kept in two parts, what came straight from the plants and what came out of the store:
// two arrays and not one of pairs, since `add_marked` adds to an array of sums, for this option as for the flat one.
#[derive(Drop)]
pub struct DelimitationOption {
    taken: Taken,
    store_in: u32,
    grid_charging: u32,
    store_feed_in: u32,
    marked_direct: [u32; PLACES],
    marked_store: [u32; PLACES],
    ghost stored: { store_in ≤ 50000 * taken.quarters },
    ghost charged: { grid_charging ≤ store_in },
    ghost discharged: { store_feed_in ≤ taken.feed_in },
    ghost direct_part: { ((p : ℕ) → slice_index_or marked_direct p 0 + store_feed_in ≤ taken.feed_in) },
    ghost store_part: { ((p : ℕ) → slice_index_or marked_store p 0 ≤ store_feed_in) },
}

mod flows;
pub mod histories;
pub mod settles;
