// Negative prices that stand together at either end of some prices. Two chains, since one over any iterator would have to promise what that yields.
ghost use Rattle.std.specs.Prelude.{◌≡◌, pos, int_lt};
ghost use Rattle.std.specs.List.{prefix_len, suffix_len};

// How many prices are negative after the last that is not.
pub(crate) fn negative_at_end(prices: &[i32]) -> usize
    ensures { result ≡ suffix_len (λ price. int_lt price (pos 0)) prices.now }
{
    prices.iter().rev().take_while(|price| **price < 0).count()
}

// How many prices are negative before the first that is not.
pub(crate) fn negative_at_start(prices: &[i32]) -> usize
    ensures { result ≡ prefix_len (λ price. int_lt price (pos 0)) prices.now }
{
    prices.iter().take_while(|price| **price < 0).count()
}
