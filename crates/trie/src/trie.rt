// The trie: a node's name, the comparison of a segment with a node, and the search for a segment among a node's children.
ghost use Rattle.std.specs.Prelude.{◌≡◌};
ghost use Rattle.trie.specs.Trie.{node_name, follow, visit_node, nodes_max, search_from, segment_steps};

use layout::{Header, Node, Refusal, Span};
use std::cmp::Ordering;

// The name of a node: up to the first zero within its namelen + 1 bytes.
pub fn trie_node_name(node: Node<'_>) -> Option<Span>
    ensures { result ≡ node_name node.entry.area.now node.entry.at }
{
    let size = node.namelen() as usize;
    layout::cstr_in(node.area, Header::SIZE + node.at + Node::SIZE, size + 1)
}

// What the comparison of a segment with a node finds.
#[derive(Clone, Copy)]
pub enum Visited {
    // The segment is the node's.
    Same,
    // The search goes on at this node.
    Next(usize),
    // The search would go on, but the link at this offset is zero.
    Stop(usize),
}

// Compares a segment with the name of the node at an offset: less goes left, greater goes right.
#[tactic(auto, unfolding(crate::specs::Trie::visit_node))]
pub fn visit(area: &[u8], segment: &[u8], at: usize) -> Result<Visited, Refusal>
    ensures { result ≡ visit_node area.now segment.now at }
{
    let node = Node::touch(area, at)?;
    let Some(Span { from, to }) = trie_node_name(node) else {
        return Err(Refusal::Damaged);
    };
    Ok(match names::cmp_prop_name(segment, &area[from..to]) {
        Ordering::Equal => Visited::Same,
        Ordering::Less => follow_link(node.left(), at + Node::LEFT),
        Ordering::Greater => follow_link(node.right(), at + Node::RIGHT),
    })
}

// Where a link leads that stands at an offset.
fn follow_link(link: u32, at: usize) -> Visited
    ensures { result ≡ follow link at }
{
    if link == 0 {
        return Visited::Stop(at);
    }
    Visited::Next(link as usize)
}

// What the search for a segment finds.
#[derive(Clone, Copy)]
pub enum Searched {
    // The node of that name, and how many nodes were compared.
    Named { node: usize, compared: usize },
    // No such node: the offset of the zero link where it would hang, and how many nodes were compared.
    Absent { link: usize, compared: usize },
}

// How many nodes one segment may be compared with: more prove a cycle.
fn nodes_max(area: &[u8]) -> usize
    ensures { result ≡ nodes_max area.now }
{
    layout::data_size(area) / Node::SIZE + 1
}

// The search by left and right, from a node on.
#[tactic(auto, using(crate::proofs::TrieLaws::search_turn), unfolding(crate::specs::Trie::search_from))]
pub fn find_prop_trie_node(area: &[u8], first: usize, segment: &[u8]) -> Result<Searched, Refusal>
    ensures { result ≡ search_from area.now segment.now (nodes_max area.now) first 0 }
{
    let mut node = first;
    for earlier in 0..nodes_max(area) {
        let compared = earlier + 1;
        match visit(area, segment, node)? {
            Visited::Same => return Ok(Searched::Named { node, compared }),
            Visited::Stop(link) => return Ok(Searched::Absent { link, compared }),
            Visited::Next(next) => node = next,
        }
    }
    Err(Refusal::Damaged)
}

// The search for one segment of a name among the children of a node.
#[tactic(auto, unfolding(crate::specs::Trie::segment_steps))]
pub fn find_segment(area: &[u8], parent: usize, segment: &[u8]) -> Result<Searched, Refusal>
    ensures { result ≡ segment_steps area.now segment.now parent }
{
    if segment.is_empty() {
        return Err(Refusal::EmptySegment);
    }
    let first = Node::touch(area, parent)?.children() as usize;
    if first == 0 {
        return Ok(Searched::Absent {
            link: parent + Node::CHILDREN,
            compared: 0,
        });
    }
    find_prop_trie_node(area, first, segment)
}
