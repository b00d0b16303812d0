// The lines of a statement in print. By hand, since each text is promised: no derive has a clause for it.
ghost use Rattle.std.specs.Prelude.{Some};
ghost use Rattle.figures.specs.Text.{draw_text, feed_in_text, plant_text, contract_text, standing_text};

use crate::lines::{ContractLine, DrawFigures, FeedInFigures, PlantLine, Standing};
use std::fmt;

impl fmt::Display for DrawFigures {
    ghost output = { λ x. Some (draw_text x) };

    fn fmt<W: fmt::Write>(&self, f: &mut fmt::Formatter<W>) -> fmt::Result {
        let DrawFigures {
            draw,
            netted,
            levied,
        } = *self;
        write!(f, "draw {draw} netted {netted} levied {levied}")
    }
}

impl fmt::Display for FeedInFigures {
    ghost output = { λ x. Some (feed_in_text x) };

    fn fmt<W: fmt::Write>(&self, f: &mut fmt::Formatter<W>) -> fmt::Result {
        let FeedInFigures {
            feed_in,
            base,
            nettable,
            unassigned,
            unused,
        } = *self;
        write!(
            f,
            "feed {feed_in} base {base} nettable {nettable} unassigned {unassigned} unused {unused}"
        )
    }
}

impl fmt::Display for PlantLine {
    ghost output = { λ x. Some (plant_text x) };

    fn fmt<W: fmt::Write>(&self, f: &mut fmt::Formatter<W>) -> fmt::Result {
        let PlantLine {
            place,
            portion,
            marked,
            valued,
            unvalued,
        } = *self;
        write!(
            f,
            "plant {place} portion {portion} marked {marked} valued {valued} unvalued {unvalued}"
        )
    }
}

impl fmt::Display for ContractLine {
    ghost output = { λ x. Some (contract_text x) };

    fn fmt<W: fmt::Write>(&self, f: &mut fmt::Formatter<W>) -> fmt::Result {
        let number = self.number;
        let draw = self.draw;
        write!(f, "contract {number} {draw}")
    }
}

impl fmt::Display for Standing {
    ghost output = { λ x. Some (standing_text x) };

    fn fmt<W: fmt::Write>(&self, f: &mut fmt::Formatter<W>) -> fmt::Result {
        match self {
            Standing::Interim => write!(f, "interim"),
            Standing::Final => write!(f, "final"),
        }
    }
}
