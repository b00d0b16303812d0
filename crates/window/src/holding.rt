// What a window holds of the input, and the record at its front.
ghost use Rattle.std.specs.Prelude.{◌≡◌};
ghost use Rattle.tagged_file.specs.Decoded.{decoded, seen, AnyFits};
ghost use Rattle.window.specs.Held.{pending, room_in, ready};
ghost use Rattle.window.specs.Lying.{AnswersForAnyFile};
ghost use Rattle.window.specs.Standing.{AnswersForFile};

use crate::{CAPACITY, LONGEST, Window};
use fault::Fault;
use tagged_file::decode::decode;
use tagged_file::record::Record;

impl Window {
    // Where in the file the first byte stands that was not yet passed.
    pub fn offset(&self) -> u64
        ensures { result ≡ self.now.offset }
    {
        self.offset
    }

    // The bytes that came in and were not yet passed.
    pub fn held(&self) -> &[u8]
        ensures { result.now ≡ pending self.now }
    {
        &self.bytes.as_slice()[self.start..]
    }

    // How many bytes can still come in.
    pub fn room(&self) -> usize
        ensures { result ≡ room_in self.now }
    {
        CAPACITY - self.held().len()
    }

    // Whether the input has no more.
    pub fn is_finished(&self) -> bool
        ensures { result ≡ self.now.finished }
    {
        self.finished
    }

    // Whether no record can need bytes that are still to come.
    pub fn is_ready(&self) -> bool
        ensures { result ≡ ready self.now }
    {
        self.held().len() >= LONGEST || self.finished
    }

    // The record at the front, and how many bytes it occupies. Once the window is ready, what is still to come cannot change the answer.
    pub fn record(&self) -> Result<(Record<'_>, usize), Fault>
        ensures says { seen result ≡ decoded self.now.offset (pending self.now) }
        ensures fits { AnyFits (pending self.now) result }
        ensures whole { AnswersForFile self.now (seen result) }
        ensures any { AnswersForAnyFile self.now (seen result) }
    {
        decode(self.held(), self.offset)
    }
}
