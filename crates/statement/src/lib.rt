// A statement of a year: what it says became of the year's draw and feed-in, and how it is printed.
#![tactic(auto)]

ghost use Rattle.std.specs.Prelude.{◌≡◌};
ghost use Rattle.statement.specs.Lines.{plant_lines, contract_lines, blank};

use figures::lines::{ContractLine, PlantLine, Standing, Totals};
use options::settlement_option::PLACES;

pub mod text;

// The most contracts of a year.
pub const MOST_CONTRACTS: usize = 4;

// The first `plant_count` plant lines, in the order of adding, and the first `contract_count` contract lines, in the order of beginning, count.
// Arrays with counts and no vectors of fixed capacity, so that a statement is copied by use.
#[derive(Clone, Copy, PartialEq, Debug)]
pub struct Statement {
    pub year: u16,
    // The option's number, as its trait has it.
    pub option: u8,
    pub quarters: u32,
    pub standing: Standing,
    pub totals: Totals,
    pub plants: [PlantLine; PLACES],
    pub plant_count: usize,
    pub contracts: [ContractLine; MOST_CONTRACTS],
    pub contract_count: usize,
}

impl Statement {
    // A statement for a caller to have filled.
    pub fn blank() -> Statement
        ensures { result ≡ blank }
    {
        Statement {
            year: 0,
            option: 0,
            quarters: 0,
            standing: Standing::default(),
            totals: Totals::default(),
            plants: [PlantLine::default(); PLACES],
            plant_count: 0,
            contracts: [ContractLine::default(); MOST_CONTRACTS],
            contract_count: 0,
        }
    }

    // The lines of the plants.
    pub fn plant_lines(&self) -> &[PlantLine]
        ensures { result.now ≡ plant_lines self.now }
    {
        &self.plants[..self.plant_count.min(PLACES)]
    }

    // The lines of the contracts.
    pub fn contract_lines(&self) -> &[ContractLine]
        ensures { result.now ≡ contract_lines self.now }
    {
        &self.contracts[..self.contract_count.min(MOST_CONTRACTS)]
    }
}
