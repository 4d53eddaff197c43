// The test that every call makes first.
ghost use Rattle.std.specs.Prelude.{◌≡◌};
ghost use Rattle.trie.specs.Header.{header_ok};

use layout::Header;

// Whether the length, the magic and the version are an area's.
#[tactic(auto, unfolding(crate::specs::Header::header_ok))]
pub fn header_ok(area: &[u8]) -> bool
    ensures { result ≡ header_ok area.now }
{
    if area.len() < Header::AREA_MIN {
        return false;
    }
    if Header::AREA_MAX < area.len() {
        return false;
    }
    // Two arrays, whose length is known: every call makes this test, and a comparison of slices would be a call of its own.
    let at = Header::MAGIC;
    if [area[at], area[at + 1], area[at + 2], area[at + 3]] != Header::PROP_AREA_MAGIC {
        return false;
    }
    words::word(area, Header::VERSION) == Header::PROP_AREA_VERSION
}
