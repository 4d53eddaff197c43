// The node before in a tree of siblings.
ghost use Rattle.std.specs.Prelude.{◌<◌};

use probes::NodeNumber;

// A node that has siblings: any but the root.
#[derive(Clone, Copy)]
pub struct Sibling {
    pub node: NodeNumber,
    ghost below: { 0 < node.word },
}
