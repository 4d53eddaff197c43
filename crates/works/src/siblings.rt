// The order of siblings: each node's name after that of the node before.
ghost use Rattle.std.specs.Prelude.{◌≡◌};
ghost use Rattle.names.specs.Names.{segment_order};
ghost use Rattle.walk.specs.Model.{name_at, is_less, follows};
ghost use Rattle.works.specs.View.{before_of};

use crate::sibling::Sibling;
use layout::Node;
use probes::NodeNumber;

// Whether the name of node p is less than that of node q: shorter is less, then byte by byte.
// A byte past the area's end counts as zero, so the names are no slices that `cmp` could take.
fn less(area: &[u8], p: NodeNumber, q: NodeNumber) -> bool
    ensures { result ≡ is_less (segment_order (name_at area.now p.word) (name_at area.now q.word)) }
{
    let size = p.field(area, Node::NAMELEN) as usize;
    let other = q.field(area, Node::NAMELEN) as usize;
    if size != other {
        return size < other;
    }
    let a = p.name_from();
    let b = q.name_from();
    for i in 0..size {
        let x = words::byte_or_zero(area, a + i);
        let y = words::byte_or_zero(area, b + i);
        if x != y {
            return x < y;
        }
    }
    false
}

// Whether node n comes after the one before, if there is one.
#[tactic(auto, unfolding(walk::specs::Model::follows))]
pub fn follows(area: &[u8], before: Option<Sibling>, n: NodeNumber) -> bool
    ensures { result ≡ follows area.now (before_of before) n.word }
{
    match before {
        None => true,
        Some(before) => less(area, before.node, n),
    }
}
