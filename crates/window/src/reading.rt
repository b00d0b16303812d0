// Reading on through a window: pieces of the input come in at its end, and records are passed at its front.
ghost use Rattle.std.specs.Prelude.{[], take};
ghost use Rattle.window.specs.Held.{Fresh, Fed, Finished, Passed, Settled};
ghost use Rattle.window.specs.Lying.{LiesAtStart, LiesOn, LiesPast, LiesAtEnd};
ghost use Rattle.window.specs.Standing.{StandsAtStart, StandsOn, StandsAtEnd};

use crate::Window;
use arrayvec::ArrayVec;

// Where a window stands in a file is said twice of each call and kept in no type: it is a fact about the file that the caller knows.
impl Window {
    pub fn new() -> Window
        ensures fresh { Fresh result }
        ensures stands { StandsAtStart result }
        ensures lies { LiesAtStart result }
    {
        Window {
            bytes: ArrayVec::new(),
            start: 0,
            offset: 0,
            finished: false,
        }
    }

    // Takes in as many bytes of the piece as there is room for, and answers how many.
    pub fn feed(&mut self, piece: &[u8]) -> usize
        ensures fed { Fed self.old piece.now result self.new }
        ensures stands { StandsOn self.old (take result piece.now) self.new }
        ensures lies { LiesOn self.old (take result piece.now) self.new }
    {
        let count = self.room().min(piece.len());
        self.settle();
        self.bytes.try_extend_from_slice(&piece[..count]).unwrap();
        count
    }

    // Moves what is held to the front.
    fn settle(&mut self)
        ensures { Settled self.old self.new }
    {
        let held = self.held().len();
        self.bytes.as_mut_slice().copy_within(self.start.., 0);
        self.bytes.truncate(held);
        self.start = 0;
    }

    // The input has no more.
    pub fn finish(&mut self)
        ensures finished { Finished self.old self.new }
        ensures stands { StandsAtEnd self.old self.new }
        ensures lies { LiesAtEnd self.old self.new }
    {
        self.finished = true;
    }

    // Passes the first `size` bytes, or all that is held if there are fewer. The offset stays at the largest number of 64 bits once it is there.
    pub fn pass(&mut self, size: usize)
        ensures passed { Passed self.old size self.new }
        ensures stands { StandsOn self.old [] self.new }
        ensures lies { LiesPast self.old self.new }
    {
        let passed = size.min(self.held().len());
        self.start += passed;
        self.offset = self.offset.saturating_add(passed as u64);
    }
}
