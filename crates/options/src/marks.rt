// Sums by place, of the quarters in which the place was marked.
ghost use Rattle.std.specs.Prelude.{ℕ, ◌+◌, ◌≤◌, slice_index};
ghost use Rattle.options.specs.Quarters.{Marks, CappedMarks};

use crate::settlement_option::PLACES;

// The sums with an amount added at each marked place. A sum that a u32 cannot hold stays at the largest that it can.
// A year's feed-in is at most 50,000 Wh in each of 35,136 quarters, 1,756,800,000 Wh, and then none is capped.
pub fn add_marked(sums: [u32; PLACES], marks: [bool; PLACES], amount: u32) -> [u32; PLACES]
    ensures capped { CappedMarks sums marks amount result }
    ensures uncapped { ((p : ℕ) → slice_index sums p + amount ≤ 1756800000) → Marks sums marks amount result }
{
    let mut next = sums;
    // By place: of a loop over borrowed sums, zipped with their marks, no proof knows what it wrote.
    for (place, marked) in marks.iter().enumerate() {
        if *marked {
            next[place] = next[place].saturating_add(amount);
        }
    }
    next
}
