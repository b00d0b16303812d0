// Bytes that are at hand, as an input that brings them piece by piece.
ghost use Rattle.std.specs.Prelude.{◌≡◌};
ghost use Rattle.settlement.specs.Files.{ComesTo};
ghost use Rattle.settlement.specs.Spelled.{FileSettlesTo};

use crate::input::Input;
use crate::whole_file::settle;
use calendar::published_table::PublishedTable;
use fault::Fault;
use statement::Statement;
use std::convert::Infallible;

// At most `size` bytes come at a time, and at least one while there are any.
#[derive(Drop)]
pub struct Pieces<'a> {
    rest: &'a [u8],
    size: usize,
}

impl<'a> Pieces<'a> {
    pub fn new(bytes: &'a [u8], size: usize) -> Pieces<'a>
        ensures brings { result.rest.now ≡ bytes.now }
        ensures cut { result.size ≡ size }
    {
        Pieces { rest: bytes, size }
    }
}

impl<'a> Input for Pieces<'a> {
    ghost brings = { λ p file. p.rest.now ≡ file };

    type Error = Infallible;

    fn read_on(&mut self, piece: &mut [u8]) -> Result<usize, Infallible> {
        let count = self.rest.len().min(piece.len()).min(self.size.max(1));
        let (front, rest) = self.rest.split_at(count);
        piece[..count].copy_from_slice(front);
        self.rest = rest;
        Ok(count)
    }
}

// What a file comes to, whatever the size of the pieces that it comes in.
pub fn settle_bytes(
    table: PublishedTable<'_>,
    bytes: &[u8],
    size: usize,
) -> Result<Statement, Fault>
    ensures spelled { FileSettlesTo table.entry bytes.now result }
    ensures in_turn { ComesTo table.entry bytes.now result }
{
    let Ok(outcome) = settle(table, &mut Pieces::new(bytes, size));
    outcome
}
