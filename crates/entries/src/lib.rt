// Entries: laid down with their value and name, and linked.
#![tactic(auto)]

ghost use Rattle.std.specs.Prelude.{◌≡◌, ◌+◌, ◌≤◌, ◌<◌, length};
ghost use Rattle.layout.specs.Layout.{header_size, used_field, entry_size, slot_size, Within, header_word};
ghost use Rattle.property_info.specs.Written.{short_stores};
ghost use Rattle.allocation.specs.View.{seen, placed_step};
ghost use Rattle.entries.specs.Entries.{lay_entry, long_entry, new_entry, add_entry};

use layout::{Entry, Header, Node, Refusal};

// Name and value are two arguments of the call, and stay two: a struct of both would be made here to be taken apart here.

// Makes a short entry where room was given.
#[tactic(auto, using(crate::proofs::Laws::store_laws), unfolding(allocation::specs::View::seen, crate::specs::Entries::lay_entry))]
fn new_short(area: &mut [u8], at: usize, name: &[u8], value: &[u8]) -> Result<usize, Refusal>
    requires { (Within area.old (entry_size + length name.now + 1) at) × (length value.now < slot_size) }
    ensures { placed_step result area.new ≡ seen (lay_entry area.old name.now at (short_stores at value.now)) }
{
    Entry::touch(area, at)?;
    property_info::init_with_value(area, at, value);
    words::put_text(area, Header::SIZE + at + Entry::SIZE, name);
    Ok(at)
}

// Makes a long entry where room was given: its value first, in room of its own.
#[tactic(auto, using(crate::proofs::Laws::store_laws), unfolding(allocation::specs::View::seen, crate::specs::Entries::long_entry, crate::specs::Entries::lay_entry))]
fn new_long(area: &mut [u8], at: usize, name: &[u8], value: &[u8]) -> Result<usize, Refusal>
    requires { (Within area.old (entry_size + length name.now + 1) at) × (at ≤ header_word area.old used_field) }
    ensures { placed_step result area.new ≡ seen (long_entry area.old name.now value.now at) }
{
    let far = allocation::allocate_obj(area, 0, value.len())?;
    words::put_text(area, Header::SIZE + far, value);
    Entry::touch(area, at)?;
    property_info::init_with_long_offset(area, at, (far - at) as u32);
    words::put_text(area, Header::SIZE + at + Entry::SIZE, name);
    Ok(at)
}

// A new entry of a name and a value, not linked yet. The area is lent to be written, so no type carries that it has a header.
#[tactic(auto, unfolding(allocation::specs::View::seen, crate::specs::Entries::new_entry))]
fn new_prop_info(area: &mut [u8], name: &[u8], value: &[u8]) -> Result<usize, Refusal>
    requires { header_size ≤ length area.old }
    ensures { placed_step result area.new ≡ seen (new_entry area.old name.now value.now) }
{
    let at = allocation::allocate_obj(area, Entry::SIZE, name.len())?;
    // 92 bytes are already long: the slot holds the value's zero too.
    if value.len() < Entry::VALUE_MAX {
        return new_short(area, at, name, value);
    }
    new_long(area, at, name, value)
}

// The entry of a name at its last node: there already, or laid down and linked.
#[tactic(auto, unfolding(allocation::specs::View::seen, crate::specs::Entries::add_entry, words::specs::Stores::run))]
pub fn add_entry(area: &mut [u8], node: usize, name: &[u8], value: &[u8]) -> Result<usize, Refusal>
    ensures { placed_step result area.new ≡ seen (add_entry area.old name.now value.now node) }
{
    let prop = Node::touch(area, node)?.prop() as usize;
    if prop != 0 {
        return Ok(prop);
    }
    let at = new_prop_info(area, name, value)?;
    words::put_word(area, Header::SIZE + (node + Node::PROP), at as u32);
    Ok(at)
}
