// What the walk asks at a place of an area: whether words are free, and which node or text stands there.
//
// These are steps, and no calls of the library: what they ask of their callers the walk keeps (crate tour).
#![tactic(auto)]

mod marks;
mod number;
mod probe;
mod used;

pub use marks::{Damaged, read_number, take, write_number};
pub use number::NodeNumber;
pub use used::Used;
