// How long the dump of an area is, counted before a byte of it is put anywhere. No sum here is near 64 bits: an area has at most 131,072 bytes, and fewer entries.
ghost use Rattle.std.specs.Prelude.{◌≡◌, ◌≤◌, length};
ghost use Rattle.layout.specs.Layout.{area_max};
ghost use Rattle.texts.specs.Text.{escaped};
ghost use Rattle.dumping.specs.Dump.{entry_line};
ghost use Rattle.dumping.specs.View.{listing_text};

use texts::Page;

// The first line has no more bytes than this: two numbers of 20 digits, and 15 bytes beside them.
const HEAD_MAX: usize = 55;

// What an entry's line has beside name and value: "[", "]: [", "]" and the line feed.
const FRAME: usize = 7;

// How long a text is, escaped. A slice that is not too long has no type of its own: it would be made of a slice at each call.
#[tactic(auto, using(crate::proofs::Totals::texts))]
fn text_size(text: &[u8]) -> usize
    requires { length text.now ≤ area_max }
    ensures { result ≡ length (escaped text.now) }
{
    text.iter().map(|b| texts::escaped_size(*b)).sum()
}

// How long the line of the entry at an offset is.
#[tactic(auto, using(crate::proofs::Counting::parts), unfolding(crate::specs::Dump::entry_line))]
fn entry_size(area: &[u8], offset: u32) -> usize
    requires { length area.now ≤ area_max }
    ensures { result ≡ length (entry_line area.now offset) }
{
    let named = text_size(property_area::name_bytes(area, offset));
    let valued = text_size(property_area::value_bytes(area, offset));
    FRAME + named + valued
}

// How long the dump of an area with these entries is. The first line is said into a buffer of its own, which tells its length.
pub fn listing_size(area: &[u8], offsets: &[u32]) -> usize
    requires { (length area.now ≤ area_max) × (length offsets.now ≤ area_max) }
    ensures { result ≡ length (listing_text area.now offsets.now) }
{
    let mut head = [0u8; HEAD_MAX];
    let mut page = Page {
        out: &mut head,
        at: 0,
    };
    crate::say_head(area, offsets.len(), &mut page);
    let lines: usize = offsets.iter().map(|offset| entry_size(area, *offset)).sum();
    page.at + lines
}
