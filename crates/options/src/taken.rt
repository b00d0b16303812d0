// What both options count up over the quarters that they took.
ghost use Rattle.std.specs.Prelude.{◌≡◌, ◌*◌, ◌≤◌, ◌<◌, true, MatchResult, IfOk, Ok, Err};
ghost use Rattle.options.specs.Quarters.{allowed, taking_after};

use crate::admission::admit;
use crate::amounts::Amounts;
use fault::Fault;

// The power of all plants in W, how many quarters were taken, and their draw and feed-in in Wh.
#[derive(Clone, Copy, Debug)]
pub struct Taken {
    pub site_power: u32,
    pub quarters: u32,
    pub draw: u32,
    pub feed_in: u32,
    ghost year: { quarters ≤ 35136 },
    ghost drawn: { draw ≤ 50000 * quarters },
    ghost fed: { feed_in ≤ 50000 * quarters },
}

impl Taken {
    ghost use Rattle.options.specs.Counted.{Nothing, OneMore};

    pub fn nothing(site_power: u32) -> Taken
        ensures { Nothing site_power result }
    {
        Taken {
            site_power,
            quarters: 0,
            draw: 0,
            feed_in: 0,
        }
    }

    // With one more quarter, which is refused as `admit` refuses it.
    pub fn with(self, amounts: &Amounts) -> Result<Taken, Fault>
        ensures answer { MatchResult result (λ t. (taking_after self.quarters amounts.now ≡ Ok tt) × OneMore self amounts.now t) (λ f. taking_after self.quarters amounts.now ≡ Err f) }
        ensures admitted { IfOk result (λ _. allowed amounts.now ≡ true) }
    {
        admit(self.quarters, amounts)?;
        Ok(Taken {
            site_power: self.site_power,
            quarters: self.quarters + 1,
            draw: self.draw + amounts.draw,
            feed_in: self.feed_in + amounts.feed_in,
        })
    }
}
