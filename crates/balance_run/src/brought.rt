// What the accepted calls of an account brought, counted apart from the account.
use arrayvec::ArrayVec;
use calendar::value_calendar::ValueCalendar;
use options::amounts::Amounts;
use options::settlement_option::PLACES;
use statement::MOST_CONTRACTS;

// A plant that was added, with what was fed in while the calendar had its regime above zero.
#[derive(Clone, Copy, Default)]
pub struct MarkedPlant {
    regime: u8,
    pub feed_in: u32,
}

#[derive(Drop)]
pub struct Brought {
    pub feed_in: u32,
    pub draw: u32,
    pub plants: ArrayVec<MarkedPlant, PLACES>,
    // What was drawn while each contract ran.
    pub contracts: ArrayVec<u32, MOST_CONTRACTS>,
}

impl Brought {
    pub fn nothing() -> Brought {
        Brought {
            feed_in: 0,
            draw: 0,
            plants: ArrayVec::new(),
            contracts: ArrayVec::new(),
        }
    }

    pub fn add_plant(&mut self, regime: u8) {
        if !self.plants.is_full() {
            self.plants.push(MarkedPlant { regime, feed_in: 0 });
        }
    }

    pub fn begin_contract(&mut self) {
        if !self.contracts.is_full() {
            self.contracts.push(0);
        }
    }

    pub fn enter_quarter<C: ValueCalendar>(
        &mut self,
        calendar: &C,
        quarter: u32,
        amounts: Amounts,
    ) {
        self.feed_in = self.feed_in.saturating_add(amounts.feed_in);
        self.draw = self.draw.saturating_add(amounts.draw);
        if let Some(drawn) = self.contracts.last_mut() {
            *drawn = drawn.saturating_add(amounts.draw);
        }
        for plant in &mut self.plants {
            if let Ok(true) = calendar.above_zero(plant.regime, quarter) {
                plant.feed_in = plant.feed_in.saturating_add(amounts.feed_in);
            }
        }
    }
}
