// The years that can be settled, and their quarter hours.
ghost use Rattle.std.specs.Prelude.{◌≡◌};
ghost use Rattle.site.specs.Years.{settleable, quarters_in};

const FIRST: u16 = 2025;

const LAST: u16 = 2099;

pub fn is_settleable(year: u16) -> bool
    ensures { result ≡ settleable year }
{
    FIRST <= year && year <= LAST
}

// From 2025 to 2099 every fourth year is a leap year.
pub fn quarters_in(year: u16) -> u32
    ensures { result ≡ quarters_in year }
{
    if year % 4 == 0 { 35_136 } else { 35_040 }
}
