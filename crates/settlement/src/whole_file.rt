// A whole file, from its first piece to its outcome.
ghost use Rattle.std.specs.Prelude.{IfOk};
ghost use Rattle.settlement.specs.Inputs.{SettlesInput};

use crate::input::Input;
use crate::settlement::Settlement;
use calendar::published_table::PublishedTable;
use fault::Fault;
use statement::Statement;
use window::PIECE;

// Reads until the input ends, or until what is still to come can change nothing.
pub fn settle<I: Input>(
    table: PublishedTable<'_>,
    input: &mut I,
) -> Result<Result<Statement, Fault>, I::Error>
    ensures { IfOk result (λ out. SettlesInput I.Input.brings table.entry input.old out input.new) }
{
    let mut settlement = Settlement::new(table);
    // A buffer with a count beside it, since the count is all that reading promises.
    let mut piece = [0u8; PIECE];
    while settlement.is_open() {
        let count = input.read_on(&mut piece)?;
        if count == 0 {
            break;
        }
        settlement.feed(&piece[0..count]);
    }
    Ok(settlement.finish())
}
