// Standard input, as where a file comes from.
use settlement::input::Input;
use std::io;
use std::io::{Read, Stdin};

#[derive(Drop)]
pub(crate) struct StandardInput(pub(crate) Stdin);

impl Input for StandardInput {
    // Reading promises how many bytes came and nothing of what they are, so no file is known to come.
    ghost brings = { λ _ _. ⊥ };

    type Error = io::Error;

    fn read_on(&mut self, piece: &mut [u8]) -> io::Result<usize> {
        self.0.read(piece)
    }
}
