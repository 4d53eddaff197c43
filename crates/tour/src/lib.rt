// The walk over an area's tree of nodes, from the root's children. No heap, no recursion, linear time.
//
// Scratch has a mark for each word of the data, zero while the word is free. An object takes its words as the walk comes
// to it, so that nothing is taken twice: cycles, shared and overlapping objects end the walk. A node that is entered gets
// a record, written once into the first six of its own marks:
//
//   marks 0 to 2   its parent, and the direction from there: left, below or right
//   marks 3 to 5   its owner: the node whose children link holds its tree of siblings
//
// so the way up needs no stack, and a name is compared with its path from the end, one turn for each segment. The order
// needs the node before alone: it is handed down a left side, to the right from the node itself, and to children not at all.
//
// It is a step of check and listing (crate audit), and no call of the library: they keep what it asks.
#![tactic(auto)]

mod phases;
mod place;
mod touring;

pub use touring::tour;
