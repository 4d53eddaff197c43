// Room for objects: the used mark moves.
#![tactic(auto)]

ghost use Rattle.std.specs.Prelude.{◌≡◌, ◌+◌, ◌≤◌, length};
ghost use Rattle.words.specs.Words.{round_up4};
ghost use Rattle.layout.specs.Layout.{header_size, entry_size};
ghost use Rattle.allocation.specs.View.{seen, placed_step};
ghost use Rattle.allocation.specs.Allocate.{allocate};

use layout::{Header, Refusal};

// The largest number that a word holds.
const WORD_MAX: usize = 0xffff_ffff;

// Room for a record of some size, a text behind it and the text's zero: where it stands. The area is lent to be written, so no type carries that it has a header.
#[tactic(auto, unfolding(crate::specs::View::seen, crate::specs::Allocate::allocate, words::specs::Stores::run))]
pub fn allocate_obj(area: &mut [u8], header: usize, text: usize) -> Result<usize, Refusal>
    requires { (header_size ≤ length area.old) × (header ≤ entry_size) }
    ensures { placed_step result area.new ≡ seen (allocate area.old (round_up4 (header + text + 1))) }
{
    if WORD_MAX < text {
        return Err(Refusal::TooLarge);
    }
    let used = words::word(area, Header::USED) as usize;
    let end = used + words::align4(header + text + 1);
    if WORD_MAX < end {
        return Err(Refusal::TooLarge);
    }
    if layout::data_size(area) < end {
        return Err(Refusal::NoRoom);
    }
    words::put_word(area, Header::USED, end as u32);
    Ok(used)
}
