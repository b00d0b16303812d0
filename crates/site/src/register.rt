// The register: up to eight plants, in the order of adding.
ghost use Rattle.std.specs.Prelude.{◌<◌, ◌≤◌, All, length};
ghost use Rattle.site.specs.declared.plant.Kind.TheVariants.{PlugIn};
ghost use Rattle.site.specs.Plants.{site_power_of, kind_power};

use crate::plant::{Kind, Plant, PlantEntry};
use arrayvec::ArrayVec;
use fault::Fault;
use fault::cause::Cause;
use options::settlement_option::PLACES;

// The most power, in W: of a site, and so of each plant, and of all plug-in plants together.
const MOST_POWER: u32 = 200_000;

const MOST_PLUG_IN_POWER: u32 = 2_000;

// How many are held says what the type says, for lemmas that have the fields alone.
#[derive(Drop)]
pub struct Register {
    plants: ArrayVec<Plant, PLACES>,
    ghost held: { length plants.items ≤ 8 },
    ghost powered: { All (λ plant. 0 < plant.power) plants.items },
    ghost regimes: { All (λ plant. plant.regime ≤ 7) plants.items },
    ghost plug_in: { kind_power PlugIn plants.items ≤ 2000 },
    ghost total: { site_power_of plants.items ≤ 200000 },
}

impl Register {
    ghost use Rattle.std.specs.Prelude.{◌≡◌};
    ghost use Rattle.site.specs.Plants.{some_supported};
    ghost use Rattle.site.specs.Registers.{Empty, Adds};

    pub fn new() -> Register
        ensures { Empty result }
    {
        Register {
            plants: ArrayVec::new(),
        }
    }

    // The plants, in the order of adding.
    pub fn plants(&self) -> &[Plant]
        ensures { result.now ≡ self.now.plants.items }
    {
        self.plants.as_slice()
    }

    // The same in the vector that has room for eight. Two getters: a division takes the vector's rows, and a slice is what all else reads.
    pub fn places(&self) -> &ArrayVec<Plant, PLACES>
        ensures { result.now ≡ self.now.plants }
    {
        &self.plants
    }

    pub fn count(&self) -> usize
        ensures { result ≡ length self.now.plants.items }
    {
        self.plants.len()
    }

    // The power of all plants of one kind, in W.
    pub fn kind_power(&self, kind: Kind) -> u32
        ensures { result ≡ kind_power kind self.now.plants.items }
    {
        self.plants.iter().map(|plant| plant.power_of(kind)).sum()
    }

    // The power of all plants, in W.
    pub fn power(&self) -> u32
        ensures { result ≡ site_power_of self.now.plants.items }
    {
        self.kind_power(Kind::Ordinary) + self.kind_power(Kind::PlugIn)
    }

    pub fn has_supported(&self) -> bool
        ensures { result ≡ some_supported self.now.plants.items }
    {
        self.plants.iter().any(|plant| plant.is_supported())
    }

    pub fn add(&mut self, entry: PlantEntry) -> Result<(), Fault>
        ensures { Adds self.old entry result self.new }
    {
        let place = self.plants.len() as u64;
        if self.plants.is_full() {
            return Err(Cause::RegisterFull.at(place));
        }
        if entry.power < 1 || entry.power > MOST_POWER {
            return Err(Cause::PowerOutOfRange.at(place));
        }
        let Ok(plant) = Plant::try_from(entry) else {
            return Err(Cause::PlantCodeUnknown.at(place));
        };
        if self.kind_power(Kind::PlugIn) + plant.power_of(Kind::PlugIn) > MOST_PLUG_IN_POWER {
            return Err(Cause::PlugInPowerExceeded.at(place));
        }
        if self.power() + plant.power > MOST_POWER {
            return Err(Cause::SitePowerExceeded.at(place));
        }
        self.plants.push(plant);
        Ok(())
    }
}
