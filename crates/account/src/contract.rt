// A supply contract, with what was drawn while it ran.
ghost use Rattle.std.specs.Prelude.{ℕ};

use division::Weighted;

#[derive(Clone, Copy, Debug, Default)]
pub struct Contract {
    pub number: u32,
    // In Wh.
    pub draw: u32,
}

// Netting is divided over contracts by draw.
impl Weighted for Contract {
    ghost weight = { λ c. c.draw };

    fn weight(&self) -> u32 {
        self.draw
    }
}
