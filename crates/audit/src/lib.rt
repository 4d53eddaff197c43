// Area check and listing: whether any bytes are a sound area, and which entries it holds. No heap, no recursion, linear time.
//
// The walk that tells stands in crate tour, its steps in probes and works; these are the calls of the library.
#![tactic(auto)]

mod checking;

pub use checking::{check, list};
