// The ledger of an opened year: its contracts with their draw, and how many quarters were entered.
ghost use Rattle.std.specs.Prelude.{◌*◌, ◌<◌, ◌≤◌, length};
ghost use Rattle.account.specs.SupplyContracts.{draw_of};

use crate::contract::Contract;
use arrayvec::ArrayVec;
use statement::MOST_CONTRACTS;

// The latest contract stands last. That there are few says what the type says, for lemmas that have the fields alone.
#[derive(Drop)]
pub struct Ledger {
    contracts: ArrayVec<Contract, MOST_CONTRACTS>,
    entered: u32,
    ghost few: { length contracts.items ≤ 4 },
    ghost year: { entered ≤ 35136 },
    ghost booked: { draw_of contracts.items ≤ 50000 * entered },
}

impl Ledger {
    ghost use Rattle.std.specs.Prelude.{◌≡◌};
    ghost use Rattle.account.specs.SupplyContracts.{used};
    ghost use Rattle.account.specs.Ledgers.{Fresh, Begun, Booked};

    pub(crate) fn new() -> Ledger
        ensures { Fresh result }
    {
        Ledger {
            contracts: ArrayVec::new(),
            entered: 0,
        }
    }

    // In the order of beginning.
    pub(crate) fn contracts(&self) -> &ArrayVec<Contract, MOST_CONTRACTS>
        ensures { result.now ≡ self.now.contracts }
    {
        &self.contracts
    }

    // How many quarters were entered, and so the number of the next.
    pub(crate) fn entered(&self) -> u32
        ensures { result ≡ self.now.entered }
    {
        self.entered
    }

    pub(crate) fn uses(&self, number: u32) -> bool
        ensures { result ≡ used number self.now.contracts.items }
    {
        self.contracts
            .iter()
            .any(|contract| contract.number == number)
    }

    pub(crate) fn begin(&mut self, number: u32)
        requires { length self.old.contracts.items < 4 }
        ensures { Begun self.old number self.new }
    {
        self.contracts.push(Contract { number, draw: 0 });
    }

    // The draw goes to the contract begun last; by its place, since no proof was found of what a loan of the last one leaves.
    pub(crate) fn book(&mut self, draw: u32)
        requires { (0 < length self.old.contracts.items) × ((self.old.entered < 35136) × (draw ≤ 50000)) }
        ensures { Booked self.old draw self.new }
    {
        let last = self.contracts.len() - 1;
        self.contracts[last].draw += draw;
        self.entered += 1;
    }
}
