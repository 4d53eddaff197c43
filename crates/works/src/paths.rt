// An entry's name against the dotted path of its node, from the end backwards, by the owners in the marks.
ghost use Rattle.std.specs.Prelude.{◌≡◌, ◌+◌, ◌≤◌, ◌<◌};
ghost use Rattle.walk.specs.Marks.{all};
ghost use Rattle.walk.specs.Model.{same_at, is_path};
ghost use Rattle.probes.specs.Limits.{place_limit};

use layout::Node;
use probes::NodeNumber;

// Whether k bytes from x on are those from y on. Bytes past the end count as zero here, too, so these are no slices.
fn same_at(s: &[u8], x: usize, y: usize, k: usize) -> bool
    requires { (x + k < place_limit) × (y + k < place_limit) }
    ensures { result ≡ all (same_at s.now x y) 0 k }
{
    (0..k).all(|i| words::byte_or_zero(s, x + i) == words::byte_or_zero(s, y + i))
}

// Whether the bytes from a place up to another are the dotted path of node n.
#[tactic(auto, using(crate::proofs::PathLaws::path_laws), unfolding(walk::specs::Model::path_step))]
pub fn is_path(area: &[u8], marks: &[u8], n: NodeNumber, from: usize, to: usize) -> bool
    requires { (from ≤ to) × (to < 0x1000000000) }
    ensures { result ≡ is_path area.now marks.now n.word from to }
{
    let mut node = n;
    let mut end = to;
    for _ in 0..to - from + 1 {
        let size = node.field(area, Node::NAMELEN) as usize;
        if end - from < size {
            return false;
        }
        end -= size;
        if !same_at(area, end, node.name_from(), size) {
            return false;
        }
        node = node.owner(marks);
        if node.word == 0 {
            return end == from;
        }
        if end == from {
            return false;
        }
        end -= 1;
        if words::byte_or_zero(area, end) != b'.' {
            return false;
        }
    }
    false
}
