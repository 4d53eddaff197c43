// Text that ends with a zero byte: node names, entry names, long values.
ghost use Rattle.std.specs.Prelude.{◌≡◌};
ghost use Rattle.layout.specs.Layout.{text_in};

// Where a text stands in the area, without its zero.
#[derive(Clone, Copy, PartialEq, Eq)]
pub struct Span {
    pub from: usize,
    pub to: usize,
}

// The text up to the first zero within some bytes, all of which lie in the area; none where it runs past the area, or has no zero.
#[tactic(auto, unfolding(crate::specs::Layout::text_in))]
pub fn cstr_in(area: &[u8], from: usize, size: usize) -> Option<Span>
    ensures { result ≡ text_in area.now from size }
{
    if area.len() < from {
        return None;
    }
    if area.len() - from < size {
        return None;
    }
    let end = from + size;
    let to = words::first(area, 0, from, end);
    if to == end {
        return None;
    }
    Some(Span { from, to })
}
