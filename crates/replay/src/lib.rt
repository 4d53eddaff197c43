// Replays fixed vectors.
#![tactic(auto)]

mod checksum;
mod records;
mod replaying;
mod steps;
mod turns;

pub use records::{End, Parts, Step, read_record};
pub use replaying::{Report, Tally, replay};
