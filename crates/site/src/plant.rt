// A plant of the site.
ghost use Rattle.std.specs.Prelude.{◌≡◌, ◌<◌, ◌≤◌, Some, None, MatchResult};
ghost use Rattle.site.specs.Plants.{power_of, supported, kind_of, marketing_of, entered};

use calendar::value_calendar::LAST_REGIME;
use division::Weighted;
use thiserror::Error;

#[derive(Clone, Copy, PartialEq, Debug, Default)]
pub enum Kind {
    #[default]
    Ordinary,
    PlugIn,
}

#[derive(Clone, Copy, PartialEq, Debug, Default)]
pub enum Marketing {
    // Direct marketing without support.
    #[default]
    Other,
    // Supported by the market premium.
    MarketPremium,
}

#[derive(Clone, Copy, PartialEq, Debug, Default)]
pub struct Plant {
    // In W peak.
    pub power: u32,
    pub kind: Kind,
    pub marketing: Marketing,
    // The version of the law, from 0 to 7, by which its value falls to zero; a number, since calendars count their rows by it.
    pub regime: u8,
}

// A plant as it is offered. Its codes stay numbers, since the register judges them only after questions of its own.
#[derive(Clone, Copy, Debug)]
pub struct PlantEntry {
    pub power: u32,
    pub kind: u8,
    pub marketing: u8,
    pub regime: u8,
}

// A code that stands for no kind, no marketing or no regime.
#[derive(Clone, Copy, PartialEq, Debug, Error)]
#[error("nothing has the code {0}")]
pub struct UnknownCode(pub u8);

// Base is divided over plants by power.
impl Weighted for Plant {
    ghost weight = { λ p. p.power };

    fn weight(&self) -> u32 {
        self.power
    }
}

impl Plant {
    // The plant's power if it is of this kind, otherwise 0.
    pub fn power_of(&self, kind: Kind) -> u32
        ensures { result ≡ power_of kind self.now }
    {
        if self.kind == kind { self.power } else { 0 }
    }

    pub fn is_supported(&self) -> bool
        ensures { result ≡ supported self.now }
    {
        self.marketing == Marketing::MarketPremium
    }
}

impl TryFrom<u8> for Kind {
    type Error = UnknownCode;

    ghost try_from_gives = { λ code r. MatchResult r (λ kind. (code ≤ 1) × (kind ≡ kind_of code)) (λ _. 1 < code) };

    fn try_from(code: u8) -> Result<Kind, UnknownCode> {
        match code {
            0 => Ok(Kind::Ordinary),
            1 => Ok(Kind::PlugIn),
            _ => Err(UnknownCode(code)),
        }
    }
}

impl TryFrom<u8> for Marketing {
    type Error = UnknownCode;

    ghost try_from_gives = { λ code r. MatchResult r (λ marketing. (code ≤ 1) × (marketing ≡ marketing_of code)) (λ _. 1 < code) };

    fn try_from(code: u8) -> Result<Marketing, UnknownCode> {
        match code {
            0 => Ok(Marketing::MarketPremium),
            1 => Ok(Marketing::Other),
            _ => Err(UnknownCode(code)),
        }
    }
}

// The plant that an entry spells, if kind, marketing and regime are in range.
impl TryFrom<PlantEntry> for Plant {
    type Error = UnknownCode;

    ghost try_from_gives = { λ entry r. MatchResult r (λ plant. entered entry ≡ Some plant) (λ _. entered entry ≡ None) };

    fn try_from(entry: PlantEntry) -> Result<Plant, UnknownCode> {
        let kind = Kind::try_from(entry.kind)?;
        let marketing = Marketing::try_from(entry.marketing)?;
        if entry.regime > LAST_REGIME {
            return Err(UnknownCode(entry.regime));
        }
        Ok(Plant {
            power: entry.power,
            kind,
            marketing,
            regime: entry.regime,
        })
    }
}
