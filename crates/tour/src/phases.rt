// The directions of a node's links, and what the walk does at a node, in order.
ghost use Rattle.std.specs.Prelude.{◌≡◌};
ghost use Rattle.walk.specs.Machine.{next};
ghost use Rattle.walk.specs.Model.{dir_number, number_dir};
ghost use Rattle.tour.specs.View.{dir_of, phase_of};

// The direction of a link: to the siblings on the left, to the children, to the siblings on the right.
#[derive(Clone, Copy)]
pub enum Dir {
    Left,
    Children,
    Right,
}

// Where the walk will go from a node: along a link, the node's own work first if it leads below, or up.
#[derive(Clone, Copy)]
pub enum Phase {
    On(Dir),
    Up,
}

impl Dir {
    // The direction's number in a node's record.
    pub fn number(self) -> usize
        ensures { result ≡ dir_number (dir_of self) }
    {
        self as usize
    }

    // The direction of a record's digit. A `From` would say that every number is a direction.
    pub fn from_number(n: usize) -> Self
        ensures { dir_of result ≡ number_dir n }
    {
        match n {
            0 => Dir::Left,
            1 => Dir::Children,
            _ => Dir::Right,
        }
    }

    // What comes after what hangs there: the order itself, no choice of a step.
    pub fn next(self) -> Phase
        ensures { phase_of result ≡ next (dir_of self) }
    {
        match self {
            Dir::Left => Phase::On(Dir::Children),
            Dir::Children => Phase::On(Dir::Right),
            Dir::Right => Phase::Up,
        }
    }
}
