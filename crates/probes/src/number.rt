// The number of a node.
ghost use Rattle.std.specs.Prelude.{◌≡◌, ◌<◌};
ghost use Rattle.walk.specs.Model.{field_at, name_from, owner_at};
ghost use Rattle.probes.specs.Limits.{node_limit};

use crate::marks::read_number;
use layout::{Header, Node};

// A node's number is the word that it stands at; the root is number 0.
#[derive(Clone, Copy)]
pub struct NodeNumber {
    pub word: usize,
    ghost small: { word < node_limit },
}

impl NodeNumber {
    // A field of the node.
    pub fn field(self, area: &[u8], field: usize) -> u32
        requires { field < 128 }
        ensures { result ≡ field_at area.now self.word field }
    {
        words::word_or_zero(area, Header::SIZE + self.word * 4 + field)
    }

    // The place of the node's name.
    pub fn name_from(self) -> usize
        ensures { result ≡ name_from self.word }
    {
        Header::SIZE + self.word * 4 + Node::SIZE
    }

    // The node whose children link holds this one's tree of siblings, by its record in the marks.
    pub fn owner(self, marks: &[u8]) -> NodeNumber
        ensures { result.word ≡ owner_at marks.now self.word }
    {
        NodeNumber {
            word: read_number(marks, self.word + 3),
        }
    }
}
