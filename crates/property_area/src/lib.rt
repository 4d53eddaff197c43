// The property area, read: find; value, name and serial of an entry; the backup slot.
// Every call tests the header first; the search among nodes stands in the crate trie.
#![tactic(auto)]

mod backup;
mod descent;
mod values;

pub use backup::read_dirty_backup;
pub use descent::{Found, find};
pub use values::{name, name_bytes, serial, value, value_bytes};
