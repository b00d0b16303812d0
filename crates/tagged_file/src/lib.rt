// The tagged file: what its bytes say, and in which order its records may stand.
#![tactic(auto)]

pub mod decode;
pub mod number;
pub mod order;
pub mod record;
