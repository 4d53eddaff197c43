// The header test, and the trie: its nodes' names, and the search for a segment among them. The search tests no header.
#![tactic(auto)]

mod header;
mod trie;

pub use header::header_ok;
pub use trie::{Searched, find_prop_trie_node, find_segment};
