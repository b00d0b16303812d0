// Where the bytes of a file come from.
ghost use Rattle.std.specs.Prelude.{ℕ, List, IfOk};
ghost use Rattle.settlement.specs.Inputs.{Came};

pub trait Input {
    // What is still to come is this file, as far as that can be known.
    ghost brings: { Self → List ℕ → Type 0 };

    type Error;

    // Puts what comes next at the front of the piece, and answers how many bytes came: 0 only at the end.
    fn read_on(&mut self, piece: &mut [u8]) -> Result<usize, Self::Error>
        ensures { IfOk result (λ n. Came brings self.old piece.new n self.new) };
}
