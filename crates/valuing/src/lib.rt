// What becomes of a year's draw and feed-in: the totals, and each plant's portion with the part of it that is valued.
#![tactic(auto)]

ghost use Rattle.std.specs.Prelude.{◌≡◌, ◌<◌, ◌≤◌};
ghost use Rattle.valuing.specs.Valued.{drawn, valued, line, plant_lines, totals};

use division::divide_held;
use figures::lines::{DrawFigures, FeedInFigures, PlantLine, Totals};
use options::settlement_option::{PLACES, SettlementOption};
use site::plant::Plant;
use site::register::Register;

// What of a draw is netted stays below it where the division sees to that; the rest is levied.
pub fn draw_figures(draw: u32, netted: u32) -> DrawFigures
    ensures { result ≡ drawn draw netted }
{
    DrawFigures {
        draw,
        netted,
        levied: draw.saturating_sub(netted),
    }
}

// The part of a portion that has a value above zero, rounded down.
fn valued_part(portion: u32, pair: (u32, u32)) -> u32
    requires { pair.0 ≤ pair.1 }
    ensures is { result ≡ valued portion pair.0 pair.1 }
    ensures within { result ≤ portion }
{
    let (upper, lower) = pair;
    if lower == 0 {
        return 0;
    }
    (portion as u64 * upper as u64 / lower as u64) as u32
}

// The line of the plant at a place.
fn plant_line<O: SettlementOption>(
    option: &O,
    plant: &Plant,
    place: usize,
    portion: u32,
) -> PlantLine
    requires { place < 8 }
    ensures { result ≡ line O.SettlementOption option.now plant.now place portion }
{
    let valued = if plant.is_supported() {
        valued_part(portion, option.pair(place))
    } else {
        0
    };
    PlantLine {
        place,
        portion,
        marked: option.marked(place),
        valued,
        unvalued: portion - valued,
    }
}

// The line of each plant, blank where there is none. By place, since a statement keeps arrays.
pub fn plant_lines<O: SettlementOption>(option: &O, register: &Register) -> [PlantLine; PLACES]
    ensures { result ≡ plant_lines O.SettlementOption option.now register.now }
{
    let portions = divide_held(option.base(), register.places());
    let mut lines = [PlantLine::default(); PLACES];
    for (place, plant) in register.plants().iter().enumerate() {
        lines[place] = plant_line(option, plant, place, portions[place]);
    }
    lines
}

// The totals of a year, from the option's answers.
pub fn totals_of<O: SettlementOption>(option: &O) -> Totals
    ensures { result ≡ totals O.SettlementOption option.now }
{
    let draw = option.draw();
    let nettable = option.nettable();
    let netted = draw.min(nettable);
    Totals {
        draw: draw_figures(draw, netted),
        feed_in: FeedInFigures {
            feed_in: option.feed_in(),
            base: option.base(),
            nettable,
            unassigned: option.unassigned(),
            unused: nettable - netted,
        },
    }
}
