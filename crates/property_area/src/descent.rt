// Find: the segments of a name, each searched for below the node of the one before.
ghost use Rattle.std.specs.Prelude.{◌≡◌};
ghost use Rattle.property_area.specs.Find.{found_answer, find_steps, prop_steps};

use layout::{Entry, Node, Refusal};
use names::{NameCursor, Segment};
use trie::{Searched, find_segment, header_ok};

// The entry's offset, and how many nodes were compared over all segments, modulo 2^64.
#[derive(Clone, Copy)]
pub struct Found {
    pub offset: u32,
    pub compared: usize,
}

// The entry of a name.
#[tactic(auto, using(crate::proofs::FindLaws::find_laws), unfolding(crate::specs::Find::find_steps))]
pub fn find(area: &[u8], name: &[u8]) -> Result<Found, Refusal>
    ensures { found_answer result ≡ find_steps area.now name.now }
{
    if !header_ok(area) {
        return Err(Refusal::BadHeader);
    }
    // The cursor goes by value, so it is no iterator.
    let mut cursor = NameCursor::start();
    let mut node = Node::ROOT;
    let mut compared: usize = 0;
    while let Some(Segment { from, to, next }) = cursor.step(name) {
        let searched = find_segment(area, node, &name[from..to])?;
        let Searched::Named {
            node: named,
            compared: more,
        } = searched
        else {
            return Err(Refusal::Missing);
        };
        node = named;
        compared = compared.wrapping_add(more);
        cursor = next;
    }
    node_entry(area, node, compared)
}

// The entry that the last segment's node leads to.
#[tactic(auto, unfolding(crate::specs::Find::prop_steps))]
fn node_entry(area: &[u8], node: usize, compared: usize) -> Result<Found, Refusal>
    ensures { found_answer result ≡ prop_steps area.now node compared }
{
    let offset = Node::touch(area, node)?.prop();
    if offset == 0 {
        return Err(Refusal::Missing);
    }
    Entry::touch(area, offset as usize)?;
    Ok(Found { offset, compared })
}
