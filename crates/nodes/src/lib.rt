// Nodes: laid down, linked, and found or laid down for each segment of a name.
#![tactic(auto)]

ghost use Rattle.std.specs.Prelude.{◌≡◌, ◌+◌, ◌≤◌, length};
ghost use Rattle.words.specs.Stores.{run};
ghost use Rattle.names.specs.Names.{segments};
ghost use Rattle.layout.specs.Layout.{word_size, word_max, header_size, node_size, root_at, Within};
ghost use Rattle.allocation.specs.View.{seen, placed_step};
ghost use Rattle.nodes.specs.Nodes.{node_stores, new_node, hang_node, add_node, add_segment, add_path};

use layout::{Header, Node, Refusal};
use names::{NameCursor, Segment};
use trie::Searched;

// Makes a node of its links, all zero, and its name.
#[tactic(auto, unfolding(crate::specs::Nodes::node_stores, words::specs::Stores::run))]
fn init_node(area: &mut [u8], at: usize, name: &[u8])
    requires { (Within area.old (node_size + length name.now + 1) at) × (length name.now ≤ word_max) }
    ensures { area.new ≡ run area.old (node_stores at name.now) }
{
    let own = Header::SIZE + at;
    words::put_word(area, own + Node::PROP, 0);
    words::put_word(area, own + Node::LEFT, 0);
    words::put_word(area, own + Node::RIGHT, 0);
    words::put_word(area, own + Node::CHILDREN, 0);
    words::put_word(area, own + Node::NAMELEN, name.len() as u32);
    words::put_text(area, own + Node::SIZE, name);
}

// A new node of a name, not linked yet. The area is lent to be written, so no type carries that it has a header.
#[tactic(auto, unfolding(allocation::specs::View::seen, crate::specs::Nodes::new_node))]
fn new_prop_trie_node(area: &mut [u8], name: &[u8]) -> Result<usize, Refusal>
    requires { header_size ≤ length area.old }
    ensures { placed_step result area.new ≡ seen (new_node area.old name.now) }
{
    let at = allocation::allocate_obj(area, Node::SIZE, name.len())?;
    Node::touch(area, at)?;
    init_node(area, at, name);
    Ok(at)
}

// A new node, linked at once by the link at an offset.
#[tactic(auto, unfolding(allocation::specs::View::seen, crate::specs::Nodes::hang_node, words::specs::Stores::run))]
fn hang_node(area: &mut [u8], link: usize, name: &[u8]) -> Result<usize, Refusal>
    requires { Within area.old word_size link }
    ensures { placed_step result area.new ≡ seen (hang_node area.old link name.now) }
{
    let at = new_prop_trie_node(area, name)?;
    words::put_word(area, Header::SIZE + link, at as u32);
    Ok(at)
}

// The node of a segment, searched for by left and right from a node on; laid down where it is missing.
#[tactic(auto, unfolding(allocation::specs::View::seen, crate::specs::Nodes::add_node))]
fn add_prop_trie_node(area: &mut [u8], first: usize, segment: &[u8]) -> Result<usize, Refusal>
    ensures { placed_step result area.new ≡ seen (add_node area.old segment.now first) }
{
    // What the search answered is taken apart by `let .. else`, a rule of the project; the other branch lays down what is missing, and returns any other refusal, which `and` keeps.
    let searched = trie::find_prop_trie_node(area, first, segment);
    let Ok(Searched::Named { node, compared: _ }) = searched else {
        let Ok(Searched::Absent { link, compared: _ }) = searched else {
            return searched.and(Ok(first));
        };
        return hang_node(area, link, segment);
    };
    Ok(node)
}

// The node of a segment among the children of a node. The first child is laid down, and then searched from like any other.
#[tactic(auto, unfolding(allocation::specs::View::seen, crate::specs::Nodes::add_segment))]
fn add_segment(area: &mut [u8], parent: usize, segment: &[u8]) -> Result<usize, Refusal>
    ensures { placed_step result area.new ≡ seen (add_segment area.old segment.now parent) }
{
    let first = Node::touch(area, parent)?.children() as usize;
    if first != 0 {
        return add_prop_trie_node(area, first, segment);
    }
    let at = hang_node(area, parent + Node::CHILDREN, segment)?;
    add_prop_trie_node(area, at, segment)
}

// The node of a name's last segment, each node on the way found or laid down.
pub fn add_path(area: &mut [u8], name: &[u8]) -> Result<usize, Refusal>
    ensures { placed_step result area.new ≡ seen (add_path area.old (segments name.now) root_at) }
{
    // The cursor goes by value, so it is no iterator.
    let mut cursor = NameCursor::start();
    let mut node = Node::ROOT;
    while let Some(Segment { from, to, next }) = cursor.step(name) {
        let placed = add_segment(area, node, &name[from..to]);
        let Ok(at) = placed else {
            return placed;
        };
        node = at;
        cursor = next;
    }
    Ok(node)
}
