// A settlement option by what it means: the sums of the quarters it took, and what it makes of them.
ghost use Rattle.std.specs.Prelude.{◌≡◌, ℕ, ◌+◌, ◌*◌, ◌<◌, ◌≤◌, Bool, List};
ghost use Rattle.options.specs.declared.amounts.Amounts.{Amounts};
ghost use Rattle.options.specs.Quarters.{Sums, Started, Added, Took, at_place};

use crate::amounts::Amounts;
use fault::Fault;

// The places that plants can take at a site.
pub const PLACES: usize = 8;

// The quarters of the longest year.
pub const LONGEST_YEAR: u32 = 35_136;

// Everything above an option relies on these members and laws alone.
pub trait SettlementOption: Sized {
    // its number in files and print; a number and no enum, since this crate knows none of the options
    ghost number: { ℕ };

    // the most ordinary power, in W, that a site under it may have
    ghost limit: { ℕ };

    // site power, quarters, draw, feed-in and the marked sum of each place
    ghost sums: { Self → Sums };

    // the feed-in that is divided over the plants
    ghost base: { Self → ℕ };

    // the feed-in that may be netted against draw
    ghost nettable: { Self → ℕ };

    // the feed-in that is neither
    ghost unassigned: { Self → ℕ };

    // a place's share of the base that has a value above zero is its upper over its lower
    ghost upper: { Self → ℕ → ℕ };

    ghost lower: { Self → ℕ → ℕ };

    // the second state is the first after a quarter with these amounts and marks
    ghost takes: { Self → Amounts → List Bool → Self → Type 0 };

    fn number() -> u8
        ensures { result ≡ number };

    fn limit() -> u32
        ensures { result ≡ limit };

    fn start(site_power: u32) -> Self
        ensures { Started site_power (sums result) };

    // Refuses amounts above the largest, and a quarter past the longest year.
    fn take(&mut self, amounts: Amounts, marks: [bool; PLACES]) -> Result<(), Fault>
        ensures { Took (sums self.old) amounts result (takes self.old amounts marks self.new) (self.old ≡ self.new) };

    fn site_power(&self) -> u32
        ensures { result ≡ (sums self.now).site_power };

    fn quarters(&self) -> u32
        ensures { result ≡ (sums self.now).quarters };

    fn draw(&self) -> u32
        ensures { result ≡ (sums self.now).draw };

    fn feed_in(&self) -> u32
        ensures { result ≡ (sums self.now).feed_in };

    fn marked(&self, place: usize) -> u32
        ensures { result ≡ at_place place (sums self.now).marked };

    fn base(&self) -> u32
        ensures { result ≡ base self.now };

    fn nettable(&self) -> u32
        ensures { result ≡ nettable self.now };

    fn unassigned(&self) -> u32
        ensures { result ≡ unassigned self.now };

    // The upper and the lower of a place.
    fn pair(&self, place: usize) -> (u32, u32)
        ensures { result ≡ (at_place place (upper self.now), at_place place (lower self.now)) };

    ghost adds: { (o p : Self) (a : Amounts) (marks : List Bool) → takes o a marks p → Added (sums o) a marks (sums p) };

    ghost whole: { (o : Self) → base o + nettable o + unassigned o ≡ (sums o).feed_in };

    ghost ordered: { (o : Self) (p : ℕ) → p < 8 → upper o p ≤ lower o p };

    ghost within: { (o : Self) (p : ℕ) → p < 8 → lower o p ≤ (sums o).feed_in };

    ghost unmarked: { (o : Self) (p : ℕ) → p < 8 → (sums o).marked p ≡ 0 → upper o p ≡ 0 };

    ghost fully_marked: { (o : Self) (p : ℕ) → p < 8 → (sums o).marked p ≡ (sums o).feed_in → upper o p ≡ lower o p };

    ghost grounded: { (o : Self) (p : ℕ) → p < 8 → lower o p ≡ 0 → base o ≡ 0 };

    ghost year: { (o : Self) → (sums o).quarters ≤ 35136 };

    ghost drawn: { (o : Self) → (sums o).draw ≤ 50000 * (sums o).quarters };

    ghost fed: { (o : Self) → (sums o).feed_in ≤ 50000 * (sums o).quarters };
}
