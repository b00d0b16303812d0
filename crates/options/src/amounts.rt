// What one quarter hour brought.
ghost use Rattle.std.specs.Prelude.{◌≡◌};
ghost use Rattle.options.specs.Quarters.{allowed};

// The largest amount of a quarter hour, in Wh.
pub const LARGEST: u32 = 50_000;

// In Wh, each as its meter gave it.
#[derive(Clone, Copy, Debug)]
pub struct Amounts {
    pub draw: u32,
    pub feed_in: u32,
    pub store_in: u32,
    pub store_out: u32,
}

impl Amounts {
    // Whether all four are as small as a quarter hour's can be.
    pub fn are_allowed(&self) -> bool
        ensures { result ≡ allowed self.now }
    {
        self.draw <= LARGEST
            && self.feed_in <= LARGEST
            && self.store_in <= LARGEST
            && self.store_out <= LARGEST
    }
}
