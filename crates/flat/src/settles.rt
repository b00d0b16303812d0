// The flat option: how it settles. Feed-in up to a cap is divided over the plants, feed-in above it may be netted.
ghost use Rattle.std.specs.Prelude.{◌-◌, min, get_or};
ghost use Rattle.flat.specs.Flat.{sums_of, cap};
ghost use Rattle.options.specs.Quarters.{Added};
ghost use Rattle.std.proofs.Common.{rules};

use crate::FlatOption;
use fault::Fault;
use options::amounts::Amounts;
use options::marks::add_marked;
use options::settlement_option::{PLACES, SettlementOption};
use options::taken::Taken;

// The most ordinary power of a flat site, in W.
const LIMIT: u32 = 30_000;

// The cap for each watt of site power, plug-in plants counted, in Wh.
const CAP_PER_WATT: u64 = 500;

impl SettlementOption for FlatOption {
    ghost number = { 0 };

    ghost limit = { 30000 };

    ghost sums = { sums_of };

    ghost base = { λ o. min o.taken.feed_in (cap o) };

    ghost nettable = { λ o. o.taken.feed_in - cap o };

    ghost unassigned = { λ _. 0 };

    ghost upper = { λ o p. get_or o.marked p 0 };

    ghost lower = { λ o _. o.taken.feed_in };

    ghost takes = { λ o a marks p. Added (sums_of o) a marks (sums_of p) };

    ghost adds = { Prim.search rules };

    ghost whole = { Prim.search rules };

    ghost ordered = { Prim.search rules };

    ghost within = { Prim.search rules };

    ghost unmarked = { Prim.search rules };

    ghost fully_marked = { Prim.search rules };

    ghost grounded = { Prim.search rules };

    ghost year = { Prim.search rules };

    ghost drawn = { Prim.search rules };

    ghost fed = { Prim.search rules };

    fn number() -> u8 {
        0
    }

    fn limit() -> u32 {
        LIMIT
    }

    fn start(site_power: u32) -> FlatOption {
        FlatOption {
            taken: Taken::nothing(site_power),
            marked: [0; PLACES],
        }
    }

    fn take(&mut self, amounts: Amounts, marks: [bool; PLACES]) -> Result<(), Fault> {
        let taken = self.taken.with(&amounts)?;
        *self = FlatOption {
            taken,
            marked: add_marked(self.marked, marks, amounts.feed_in),
        };
        Ok(())
    }

    fn site_power(&self) -> u32 {
        self.taken.site_power
    }

    fn quarters(&self) -> u32 {
        self.taken.quarters
    }

    fn draw(&self) -> u32 {
        self.taken.draw
    }

    fn feed_in(&self) -> u32 {
        self.taken.feed_in
    }

    fn marked(&self, place: usize) -> u32 {
        self.marked.get(place).copied().unwrap_or(0)
    }

    fn base(&self) -> u32 {
        let cap = CAP_PER_WATT * self.taken.site_power as u64;
        cap.min(self.taken.feed_in as u64) as u32
    }

    fn nettable(&self) -> u32 {
        self.taken.feed_in - self.base()
    }

    fn unassigned(&self) -> u32 {
        0
    }

    fn pair(&self, place: usize) -> (u32, u32) {
        match self.marked.get(place) {
            Some(marked) => (*marked, self.taken.feed_in),
            None => (0, 0),
        }
    }
}
