// Dotted names: a cursor that takes one apart segment by segment, and the order of segments.
#![tactic(auto)]

ghost use Rattle.std.specs.Prelude.{◌≡◌};
ghost use Rattle.names.specs.Names.{step_from, segment_order};

use std::cmp::Ordering;

// A place in a dotted name: where the next segment begins. Past the name's end there is none.
#[derive(Clone, Copy)]
pub struct NameCursor {
    pub at: usize,
}

// What a step of the cursor hands back: the segment's bounds, and the cursor behind it.
#[derive(Clone, Copy)]
pub struct Segment {
    pub from: usize,
    pub to: usize,
    pub next: NameCursor,
}

impl NameCursor {
    // The cursor before the first segment.
    pub fn start() -> Self
        ensures { result.at ≡ 0 }
    {
        NameCursor { at: 0 }
    }

    // The segment up to the next dot or the name's end. Every name has one at least, maybe empty; so has what follows a dot.
    #[tactic(auto, unfolding(crate::specs::Names::step_from))]
    pub fn step(self, name: &[u8]) -> Option<Segment>
        ensures { result ≡ step_from name.now self.at }
    {
        let at = self.at;
        if name.len() < at {
            return None;
        }
        let to = words::first(name, b'.', at, name.len());
        Some(Segment {
            from: at,
            to,
            next: NameCursor { at: to + 1 },
        })
    }
}

// Compares two segments: the shorter is less, and equal lengths compare byte by byte.
#[tactic(auto, using(crate::proofs::Laws::order_even), unfolding(crate::specs::Names::segment_order))]
pub fn cmp_prop_name(a: &[u8], b: &[u8]) -> Ordering
    ensures { result ≡ segment_order a.now b.now }
{
    match a.len().cmp(&b.len()) {
        Ordering::Equal => a.cmp(b),
        unequal => unequal,
    }
}
