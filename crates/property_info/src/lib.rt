// The entry: long or short, its name, where its value stands, and the writing of it. The writing takes an offset at which an entry lies in the area.
#![tactic(auto)]

ghost use Rattle.std.specs.Prelude.{◌≡◌, true, ◌<◌, length};
ghost use Rattle.words.specs.Stores.{run};
ghost use Rattle.layout.specs.Layout.{EntryIn, slot_size};
ghost use Rattle.property_info.specs.Entry.{is_long, short_value, name_of, long_value, value_of};
ghost use Rattle.property_info.specs.Written.{short_stores, long_stores, write_stores};

use layout::{Entry, Header, Span};
use serials::{dirty_serial, long_serial, next_serial, says_long, short_serial};

#[tactic(auto, unfolding(crate::specs::Entry::is_long))]
pub fn is_long(entry: Entry<'_>) -> bool
    ensures { result ≡ is_long entry.entry.area.now entry.entry.at }
{
    says_long(entry.serial())
}

// The slot's bytes up to the first zero; all of them where there is none.
#[tactic(auto, unfolding(crate::specs::Entry::short_value))]
fn short_value_bytes(entry: Entry<'_>) -> Option<Span>
    ensures { result ≡ short_value entry.entry.area.now entry.entry.at }
{
    let from = Header::SIZE + entry.at + Entry::VALUE;
    let to = words::first(entry.area, 0, from, from + Entry::VALUE_MAX);
    Some(Span { from, to })
}

// The full dotted name. Its length is kept nowhere, so it may run to the end of the area.
#[tactic(auto, unfolding(crate::specs::Entry::name_of))]
pub fn property_info_name(entry: Entry<'_>) -> Option<Span>
    ensures { result ≡ name_of entry.entry.area.now entry.entry.at }
{
    let from = Header::SIZE + entry.at + Entry::SIZE;
    layout::cstr_in(entry.area, from, entry.area.len() - from)
}

// The value of a long entry: no other is asked for it. It stands behind the entry and its name: anywhere else the entry's own bytes would be shown.
#[tactic(auto, unfolding(crate::specs::Entry::long_value, layout::specs::Layout::text_in))]
fn long_property_value(entry: Entry<'_>) -> Option<Span>
    requires { is_long entry.area.now entry.at ≡ true }
    ensures { result ≡ long_value entry.entry.area.now entry.entry.at }
{
    let name = property_info_name(entry)?;
    let relative = entry.long_offset() as usize;
    if relative < words::align4(Entry::SIZE + (name.to - name.from) + 1) {
        return None;
    }
    let own = Header::SIZE + entry.at;
    if entry.area.len() - own < relative {
        return None;
    }
    let start = own + relative;
    layout::cstr_in(entry.area, start, entry.area.len() - start)
}

// The value that the entry shows.
#[tactic(auto, unfolding(crate::specs::Entry::value_of))]
pub fn property_value(entry: Entry<'_>) -> Option<Span>
    ensures { result ≡ value_of entry.entry.area.now entry.entry.at }
{
    if is_long(entry) {
        return long_property_value(entry);
    }
    short_value_bytes(entry)
}

// The writers take an offset: an area that is lent to be written stays a slice, since a type that holds it would be made and taken apart at each call.

// Makes a short entry of its serial and value.
#[tactic(auto, unfolding(crate::specs::Written::short_stores, words::specs::Stores::run))]
pub fn init_with_value(area: &mut [u8], at: usize, value: &[u8])
    requires { (EntryIn area.old at) × (length value.now < slot_size) }
    ensures { area.new ≡ run area.old (short_stores at value.now) }
{
    let own = Header::SIZE + at;
    words::put_word(area, own + Entry::SERIAL, short_serial(value.len()));
    words::put_text(area, own + Entry::VALUE, value);
}

// Makes a long entry of its serial, the message for old readers, and how far behind the entry its value stands.
#[tactic(auto, unfolding(crate::specs::Written::message, crate::specs::Written::long_stores, words::specs::Stores::run))]
pub fn init_with_long_offset(area: &mut [u8], at: usize, relative: u32)
    requires { EntryIn area.old at }
    ensures { area.new ≡ run area.old (long_stores at relative) }
{
    let own = Header::SIZE + at;
    words::put_word(area, own + Entry::SERIAL, long_serial());
    words::copy(
        area,
        own + Entry::MESSAGE,
        b"Must use __system_property_read_callback() to read\0\0\0\0\0\0",
    );
    words::put_word(area, own + Entry::LONG_OFFSET, relative);
}

// Updates a short entry, whose serial was read before: odd serial, value, next serial.
#[tactic(auto, using(crate::proofs::WrittenLaws::written))]
pub fn apply_write(area: &mut [u8], at: usize, serial: u32, value: &[u8])
    requires { (EntryIn area.old at) × (length value.now < slot_size) }
    ensures { area.new ≡ run area.old (write_stores at serial value.now) }
{
    let own = Header::SIZE + at;
    words::put_word(area, own + Entry::SERIAL, dirty_serial(serial));
    words::put_text(area, own + Entry::VALUE, value);
    words::put_word(area, own + Entry::SERIAL, next_serial(serial, value.len()));
}
