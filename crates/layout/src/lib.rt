// The layout of a property area, and the reads of its records' fields.
//
//   byte 0                 128                                               area length
//        | Header, 128     | data: offsets count from here                          |
//
//   data 0          20                112                       used
//        | root     | backup slot, 92 | nodes, entries, long values | free          |
//
//   Node, 20 bytes and its name          Entry, 96 bytes and its name
//     0 namelen                            0 serial
//     4 prop      -> Entry or 0            4 value slot of 92 bytes: the value and a zero
//     8 left      -> Node or 0               or, where bit 16 of the serial says long,
//    12 right     -> Node or 0               4 a message for old readers, 56 bytes
//    16 children  -> Node or 0              60 how far behind the entry its value stands
//    20 name, a zero                        96 the whole dotted name, a zero
//
//   A name "ab.c" is a path: the root's children link leads to the nodes of first segments, a tree by left and right in
//   which "ab" is found; its children link leads to the tree in which "c" is found; that node's prop leads to the entry.
//
// Words are little-endian and stand at multiples of 4; every object takes a multiple of 4 bytes.
#![tactic(auto)]

mod records;
mod refusal;
mod text;

pub use records::{Backup, Entry, Header, Node, data_size};
pub use refusal::{Refusal, verdict_number};
pub use text::{Span, cstr_in};
