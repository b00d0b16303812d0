// Where a quarter's charging and feed-in came from.
ghost use Rattle.std.specs.Prelude.{◌≡◌};
ghost use Rattle.delimitation.specs.Delimitation.{grid_charging_of, store_feed_in_of, direct_feed_in_of};

use options::amounts::Amounts;

// What the store took from the grid.
pub(crate) fn grid_charging(amounts: &Amounts) -> u32
    ensures { result ≡ grid_charging_of amounts.now }
{
    amounts.store_in.min(amounts.draw)
}

// The feed-in that came out of the store.
pub(crate) fn store_feed_in(amounts: &Amounts) -> u32
    ensures { result ≡ store_feed_in_of amounts.now }
{
    amounts.store_out.min(amounts.feed_in)
}

// The feed-in that came straight from the plants.
pub(crate) fn direct_feed_in(amounts: &Amounts) -> u32
    ensures { result ≡ direct_feed_in_of amounts.now }
{
    amounts.feed_in - store_feed_in(amounts)
}
