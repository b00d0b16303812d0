// A statement in print, line by line. By hand, since the text is promised: no derive has a clause for it.
ghost use Rattle.std.specs.Prelude.{Some};
ghost use Rattle.statement.specs.Text.{statement_text};

use crate::Statement;
use std::fmt;

impl fmt::Display for Statement {
    ghost output = { λ x. Some (statement_text x) };

    fn fmt<W: fmt::Write>(&self, f: &mut fmt::Formatter<W>) -> fmt::Result {
        let Statement {
            year,
            option,
            quarters,
            standing,
            totals,
            ..
        } = self;
        let draw = totals.draw;
        let feed_in = totals.feed_in;
        write!(
            f,
            "year {year} option {option} quarters {quarters} {standing}\n"
        )?;
        write!(f, "{draw}\n")?;
        write!(f, "{feed_in}\n")?;
        for plant in self.plant_lines() {
            write!(f, "{plant}\n")?;
        }
        for contract in self.contract_lines() {
            write!(f, "{contract}\n")?;
        }
        Ok(())
    }
}
