// The part of the input that is held: it came in, and was not yet passed.
#![tactic(auto)]

ghost use Rattle.std.specs.Prelude.{◌≤◌};
ghost use Rattle.arrayvec.specs.ArrayVec.{array_vec_len};
ghost use Rattle.window.specs.Limits.{window_bytes};

use arrayvec::ArrayVec;
use tagged_file::record::{HEADER, LONGEST_REMARK};

pub mod holding;
pub mod reading;

// The bytes that a window holds.
pub const CAPACITY: usize = 32_768;

// The most bytes that a program reads at once, so that window and piece together hold at most 65,536 bytes of the input.
pub const PIECE: usize = 32_768;

// The bytes of the longest record, 1,027: a window that holds as many needs no more to decode one.
pub const LONGEST: usize = HEADER + LONGEST_REMARK;

// bytes[start..] is held, and begins at `offset` in the file; `finished` once the input has no more.
// What is within the window's bytes says what the type says, for lemmas that have the fields alone.
#[derive(Drop)]
pub struct Window {
    bytes: ArrayVec<u8, CAPACITY>,
    start: usize,
    offset: u64,
    finished: bool,
    ghost ordered: { start ≤ array_vec_len bytes },
    ghost within: { array_vec_len bytes ≤ window_bytes },
}
