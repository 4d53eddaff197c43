// What the walk does at a node itself: it tests the node's place in the order and its entry, whose words it takes.
//
// These are steps, and no calls of the library: what they ask of their callers the walk keeps (crate tour).
#![tactic(auto)]

mod paths;
mod sibling;
mod siblings;
mod works;

pub use sibling::Sibling;
pub use works::own_work;
