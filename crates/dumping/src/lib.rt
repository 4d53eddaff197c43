// The dump's text, as functions on slices: for the program dump, and for a room of the caller's.
#![tactic(auto)]

ghost use Rattle.audit.specs.Check.{used_of};
ghost use Rattle.texts.specs.Text.{Says};
ghost use Rattle.dumping.specs.Dump.{head_text, entry_line, DumpSays, FillSays};
ghost use Rattle.dumping.specs.View.{listing_text, FileListSays};

mod sizes;

use answers::FILE_MAX;
use layout::{Header, Refusal};
use texts::Page;

// The first line of an area with so many entries.
fn say_head(area: &[u8], count: usize, page: &mut Page<'_>)
    ensures { Says page.old page.new (head_text count (used_of area.now)) }
{
    let used = words::word_or_zero(area, Header::USED) as usize;
    page.say(b"entries ");
    page.say_number(count);
    page.say(b" used ");
    page.say_number(used);
    page.say(b"\n");
}

// The line of the entry at an offset.
fn say_entry(area: &[u8], offset: u32, page: &mut Page<'_>)
    ensures { Says page.old page.new (entry_line area.now offset) }
{
    page.say(b"[");
    page.say_escaped(property_area::name_bytes(area, offset));
    page.say(b"]: [");
    page.say_escaped(property_area::value_bytes(area, offset));
    page.say(b"]\n");
}

// The dump of an area with these entries.
#[tactic(auto, unfolding(crate::specs::Dump::entry_lines))]
fn say_listing(area: &[u8], offsets: &[u32], page: &mut Page<'_>)
    ensures { Says page.old page.new (listing_text area.now offsets.now) }
{
    say_head(area, offsets.len(), page);
    for offset in offsets {
        say_entry(area, *offset, page);
    }
}

// Listing, of an area that is no longer than area.bin may be.
fn list_file(area: &[u8], scratch: &mut [u8], list: &mut [u32]) -> Result<usize, Refusal>
    ensures { FileListSays area.now scratch.old list.old result scratch.new list.new }
{
    if FILE_MAX < area.len() {
        return Err(Refusal::BadHeader);
    }
    audit::list(area, scratch, list)
}

// Puts the dump of an area at the start of a buffer. The next place. Scratch and list as for listing.
pub fn dump(area: &[u8], scratch: &mut [u8], list: &mut [u32], out: &mut [u8]) -> usize
    ensures { DumpSays area.now scratch.old list.old out.old result out.new scratch.new list.new }
{
    let mut page = Page { out, at: 0 };
    match list_file(area, scratch, list) {
        Ok(count) => say_listing(area, &list[..count], &mut page),
        Err(why) => answers::say_refused(&mut page, why),
    }
    page.at
}

// Puts the dump of an area of any length at the start of the room, if it fits: how many bytes. Scratch and list as for listing.
pub fn dump_into(
    area: &[u8],
    scratch: &mut [u8],
    list: &mut [u32],
    room: &mut [u8],
) -> Result<usize, Refusal>
    ensures { FillSays area.now scratch.old list.old room.old result room.new scratch.new list.new }
{
    let count = audit::list(area, scratch, list)?;
    let offsets = &list[..count];
    if room.len() < sizes::listing_size(area, offsets) {
        return Err(Refusal::ShortBuffer);
    }
    let mut page = Page { out: room, at: 0 };
    say_listing(area, offsets, &mut page);
    Ok(page.at)
}
