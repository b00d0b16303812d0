// What has been read of a file, so that it can be told which record may follow.
ghost use Rattle.std.specs.Prelude.{◌≤◌};
ghost use Rattle.tagged_file.specs.Limits.{most_remarks};

pub mod following;

// The remarks that a file may have; one more is out of order.
pub const REMARKS: u16 = 4_096;

// How far a file has come.
#[derive(Clone, Copy, PartialEq, Debug)]
pub enum Stage {
    // Nothing but remarks.
    Start,
    // The year, and perhaps plants.
    Plants,
    // A contract, and perhaps quarters.
    Contracts,
    // The end.
    Over,
}

// How far the file has come, and how many remarks were read on the way.
#[derive(Drop)]
pub struct Order {
    stage: Stage,
    remarks: u16,
    ghost few: { remarks ≤ most_remarks },
}
