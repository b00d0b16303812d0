// What the content of a record offers to the account.
ghost use Rattle.std.specs.Prelude.{◌≡◌};
ghost use Rattle.file_account.specs.Offers.{plant_offered, amounts_offered};

use options::amounts::Amounts;
use site::plant::PlantEntry;
use tagged_file::number::{byte, number32};

pub(crate) fn plant_offered(content: &[u8]) -> PlantEntry
    ensures { result ≡ plant_offered content.now }
{
    PlantEntry {
        power: number32(content, 0),
        kind: byte(content, 4),
        marketing: byte(content, 5),
        regime: byte(content, 6),
    }
}

// The amounts of a quarter record follow its number.
pub(crate) fn amounts_offered(content: &[u8]) -> Amounts
    ensures { result ≡ amounts_offered content.now }
{
    Amounts {
        draw: number32(content, 2),
        feed_in: number32(content, 6),
        store_in: number32(content, 10),
        store_out: number32(content, 14),
    }
}
