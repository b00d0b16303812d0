// The flat option: what it holds.
#![tactic(auto)]

ghost use Rattle.std.specs.Prelude.{ℕ, ◌≤◌, get_or};

use options::settlement_option::PLACES;
use options::taken::Taken;

#[derive(Drop)]
pub struct FlatOption {
    taken: Taken,
    marked: [u32; PLACES],
    ghost part: { ((p : ℕ) → get_or marked p 0 ≤ taken.feed_in) },
}

pub mod settles;
