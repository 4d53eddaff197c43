// What stands at an offset: a node or a text, and how many words it takes.
ghost use Rattle.std.specs.Prelude.{◌≡◌, ◌+◌, ◌*◌, ◌≤◌, ◌<◌, length, unwrap_or, IfSome};
ghost use Rattle.layout.specs.Layout.{byte_of};
ghost use Rattle.walk.specs.Marks.{all};
ghost use Rattle.walk.specs.Model.{is_plain, node_room, text_end};
ghost use Rattle.probes.specs.Limits.{word_limit, can_begin};

use crate::used::Used;
use layout::{Backup, Header, Node};

// Whether k bytes are neither zero nor dot, from a place on.
fn plain(s: &[u8], from: usize, k: usize) -> bool
    requires { from + k ≤ length s.now }
    ensures { result ≡ all (is_plain s.now) from k }
{
    s[from..from + k].iter().all(|b| *b != 0 && *b != b'.')
}

// Whether an object can begin at an offset.
fn can_begin(at: usize) -> bool
    ensures { result ≡ can_begin at }
{
    at % 4 == 0 && Backup::END <= at
}

impl<'a> Used<'a> {
    // The words of the node at an offset, six or more, if one can stand there.
    #[tactic(auto, unfolding(walk::specs::Model::node_room))]
    pub fn node_room(self, at: usize) -> Option<usize>
        requires { at < word_limit }
        ensures says { unwrap_or result 0 ≡ node_room self.entry.area.now self.entry.mark at }
        ensures within { IfSome result (λ room. (6 ≤ room) × (4 * room ≤ self.entry.mark + 3)) }
    {
        if !can_begin(at) || self.mark < at + Node::SIZE {
            return None;
        }
        let node = Node {
            area: self.area,
            at,
        };
        let size = node.namelen() as usize;
        if size == 0 || self.mark < at + Node::SIZE + size + 1 {
            return None;
        }
        let name = Header::SIZE + at + Node::SIZE;
        if !plain(self.area, name, size) || self.area[name + size] != 0 {
            return None;
        }
        Some((Node::SIZE + size + 1).div_ceil(4))
    }

    // The place of the zero of a text that begins at a place, in an object at an offset, if one can stand there.
    #[tactic(auto, unfolding(walk::specs::Model::text_end))]
    pub fn text_end(self, at: usize, from: usize) -> Option<usize>
        ensures says { unwrap_or result 0 ≡ text_end self.entry.area.now self.entry.mark at from }
        ensures within { IfSome result (λ zero. (from ≤ zero) × (zero < byte_of self.entry.mark)) }
    {
        if !can_begin(at) {
            return None;
        }
        let end = Header::SIZE + self.mark;
        if end <= from {
            return None;
        }
        let zero = words::first(self.area, 0, from, end);
        if zero == end {
            return None;
        }
        Some(zero)
    }
}
