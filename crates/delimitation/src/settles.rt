// The delimitation option: how it settles. Feed-in out of the store counts as the site's own as far as the site's own plants charged the store.
ghost use Rattle.std.specs.Prelude.{◌≡◌, ◌≤◌};
ghost use Rattle.delimitation.specs.Delimitation.{sums_of, green, base_of, nettable_of, unassigned_of, upper_of, Takes, marked_store_of};
ghost use Rattle.std.proofs.Common.{rules};
ghost use Rattle.delimitation.specs.Green.{green_within, green_empty, green_ordered};

use crate::DelimitationOption;
use crate::flows::{direct_feed_in, grid_charging, store_feed_in};
use fault::Fault;
use options::amounts::Amounts;
use options::marks::add_marked;
use options::settlement_option::{PLACES, SettlementOption};
use options::taken::Taken;

// The most ordinary power of a site under delimitation, in W.
const LIMIT: u32 = 200_000;

impl DelimitationOption {
    // The part of an amount out of the store that the site's own plants had charged, rounded down.
    // A year's sum is at most 1,756,800,000 Wh, 50,000 in each of 35,136 quarters, so that a product of two stays below 2^62.
    fn green_part(&self, amount: u32) -> u32
        ensures is { result ≡ green self.now amount }
        ensures part { result ≤ amount }
    {
        if self.store_in == 0 {
            return 0;
        }
        let all = self.store_in as u64;
        let own = all - self.grid_charging as u64;
        let part = amount as u64 * own / all;
        part as u32
    }
}

impl SettlementOption for DelimitationOption {
    ghost number = { 1 };

    ghost limit = { 200000 };

    ghost sums = { sums_of };

    ghost base = { base_of };

    ghost nettable = { nettable_of };

    ghost unassigned = { unassigned_of };

    ghost upper = { upper_of };

    ghost lower = { λ o _. base_of o };

    ghost takes = { Takes };

    ghost adds = { Prim.search rules };

    ghost whole = { Prim.search (rules, green_within, green_empty) };

    ghost ordered = { Prim.search (rules, green_ordered) };

    ghost within = { Prim.search (rules, green_within) };

    ghost unmarked = { Prim.search rules };

    ghost fully_marked = { Prim.search rules };

    ghost grounded = { Prim.search rules };

    ghost year = { Prim.search rules };

    ghost drawn = { Prim.search rules };

    ghost fed = { Prim.search rules };

    fn number() -> u8 {
        1
    }

    fn limit() -> u32 {
        LIMIT
    }

    fn start(site_power: u32) -> DelimitationOption {
        DelimitationOption {
            taken: Taken::nothing(site_power),
            store_in: 0,
            grid_charging: 0,
            store_feed_in: 0,
            marked_direct: [0; PLACES],
            marked_store: [0; PLACES],
        }
    }

    fn take(&mut self, amounts: Amounts, marks: [bool; PLACES]) -> Result<(), Fault> {
        let taken = self.taken.with(&amounts)?;
        *self = DelimitationOption {
            taken,
            store_in: self.store_in + amounts.store_in,
            grid_charging: self.grid_charging + grid_charging(&amounts),
            store_feed_in: self.store_feed_in + store_feed_in(&amounts),
            marked_direct: add_marked(self.marked_direct, marks, direct_feed_in(&amounts)),
            marked_store: add_marked(self.marked_store, marks, store_feed_in(&amounts)),
        };
        Ok(())
    }

    fn site_power(&self) -> u32 {
        self.taken.site_power
    }

    fn quarters(&self) -> u32 {
        self.taken.quarters
    }

    fn draw(&self) -> u32 {
        self.taken.draw
    }

    fn feed_in(&self) -> u32 {
        self.taken.feed_in
    }

    fn marked(&self, place: usize) -> u32 {
        match (self.marked_direct.get(place), self.marked_store.get(place)) {
            (Some(direct), Some(store)) => direct + store,
            _ => 0,
        }
    }

    fn base(&self) -> u32 {
        self.taken.feed_in - self.store_feed_in + self.green_part(self.store_feed_in)
    }

    fn nettable(&self) -> u32 {
        if self.store_in == 0 {
            return 0;
        }
        self.store_feed_in - self.green_part(self.store_feed_in)
    }

    fn unassigned(&self) -> u32 {
        if self.store_in > 0 {
            return 0;
        }
        self.store_feed_in
    }

    fn pair(&self, place: usize) -> (u32, u32) {
        match (self.marked_direct.get(place), self.marked_store.get(place)) {
            (Some(direct), Some(store)) => (direct + self.green_part(*store), self.base()),
            _ => (0, 0),
        }
    }
}
