// An amount divided over rows by weight.
#![tactic(auto)]

ghost use Rattle.std.specs.Prelude.{◌≡◌, ℕ, ◌*◌, ◌/◌, ◌^◌, ◌<◌, ◌≤◌, length, sum};
ghost use Rattle.division.specs.Shares.{weights, Divided};

use arrayvec::ArrayVec;

// A row that takes part in a division.
pub trait Weighted {
    ghost weight: { Self → ℕ };

    fn weight(&self) -> u32
        ensures { result ≡ weight self.now };
}

// Fewer than 2^64 weights, each below 2^32, stay below 2^96 together, so that 128 bits hold them and their product with an amount.
fn all_weights<R: Weighted>(rows: &[R]) -> u128
    ensures is { result ≡ sum (weights R.Weighted.weight rows.now) }
    ensures fits { result < 2 ^ 96 }
{
    let mut all: u128 = 0;
    for row in rows {
        all += row.weight() as u128;
    }
    all
}

// What some of the weights get of the amount, rounded down. Nothing is divided where there is no weight.
fn part(amount: u32, some: u128, all: u128) -> u32
    requires { (some ≤ all) × (all < 2 ^ 96) }
    ensures { result ≡ amount * some / all }
{
    if all == 0 {
        return 0;
    }
    (amount as u128 * some / all) as u32
}

// Each row gets what the rows up to and with it get together, less what the rows before it got, so that rounding loses nothing.
// By place, since the shares lie where an array or a vector lends them.
fn share_out<R: Weighted>(amount: u32, rows: &[R], shares: &mut [u32])
    requires { length rows.now ≡ length shares.old }
    ensures { Divided amount (weights R.Weighted.weight rows.now) shares.new }
{
    let all = all_weights(rows);
    let mut weights_so_far: u128 = 0;
    let mut given = 0;
    for (place, row) in rows.iter().enumerate() {
        weights_so_far += row.weight() as u128;
        let together = part(amount, weights_so_far, all);
        shares[place] = together - given;
        given = together;
    }
}

// The shares of an array's rows, which need have nothing but a weight.
pub fn divide<R: Weighted, const N: usize>(amount: u32, rows: &[R; N]) -> [u32; N]
    ensures { Divided amount (weights R.Weighted.weight rows.now) result }
{
    let mut shares = [0; N];
    share_out(amount, rows, &mut shares);
    shares
}

// The shares of the rows that a vector holds.
pub fn divide_held<R: Weighted, const N: usize>(
    amount: u32,
    rows: &ArrayVec<R, N>,
) -> ArrayVec<u32, N>
    ensures { Divided amount (weights R.Weighted.weight rows.now.items) result.items }
{
    let mut shares = ArrayVec::from([0; N]);
    shares.truncate(rows.len());
    share_out(amount, rows.as_slice(), shares.as_mut_slice());
    shares
}
