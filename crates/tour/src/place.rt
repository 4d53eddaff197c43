// The walk's state.

use crate::phases::Phase;
use probes::NodeNumber;
use works::Sibling;

// Where the walk is: at node cur, the root is 0.
#[derive(Clone, Copy)]
pub struct Walk {
    pub cur: NodeNumber,
    pub phase: Phase,
    // The node before in this tree of siblings.
    pub before: Option<Sibling>,
}
