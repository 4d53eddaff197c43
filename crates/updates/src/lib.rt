// Updating entries in place: by name, and raw at an offset.
#![tactic(auto)]

ghost use Rattle.std.specs.Prelude.{◌≡◌, ◌+◌, ◌≤◌, length};
ghost use Rattle.words.specs.Stores.{run};
ghost use Rattle.layout.specs.Layout.{slot_size, backup_at, Within, EntryIn};
ghost use Rattle.layout.specs.Refusals.{leaves, verdict_number};
ghost use Rattle.updates.specs.Update.{value_verdict, backup_stores, slot_text, update_entry, update_steps, raw_entry, raw_steps};
ghost use Rattle.updates.specs.View.{Snapshot};

use layout::{Backup, Entry, Header, Refusal};

// Whether a slot holds a value and its zero: 92 bytes are already too long, since the slot ends with the zero.
#[tactic(auto, unfolding(crate::specs::Update::value_verdict))]
fn value_verdict(value: &[u8]) -> Result<(), Refusal>
    ensures { result ≡ value_verdict value.now }
{
    if Entry::VALUE_MAX <= value.len() {
        return Err(Refusal::TooLong);
    }
    Ok(())
}

// Stores a value and its zero in the backup slot.
fn set_dirty_backup_area(area: &mut [u8], backup: &[u8])
    requires { Within area.old (length backup.now + 1) backup_at }
    ensures { area.new ≡ run area.old (backup_stores backup.now) }
{
    words::put_text(area, Header::SIZE + Backup::AT, backup);
}

// Copies aside the value that a short entry shows; its length is the answer. The slot's end is scanned for here, in property_info and in works, each time for another answer.
fn snapshot(entry: Entry<'_>, old: &mut [u8]) -> usize
    requires { slot_size ≤ length old.old }
    ensures { Snapshot (slot_text entry.entry.area.now entry.entry.at) result old.new }
{
    let from = Header::SIZE + entry.at + Entry::VALUE;
    let to = words::first(entry.area, 0, from, from + Entry::VALUE_MAX);
    words::copy(old, 0, &entry.area[from..to]);
    to - from
}

// Updates the entry that find found.
#[tactic(auto, using(crate::proofs::Laws::store_laws), unfolding(crate::specs::Update::update_entry, crate::specs::Update::update_stores, crate::specs::Update::value_verdict))]
fn update_entry(area: &mut [u8], at: usize, value: &[u8]) -> Result<(), Refusal>
    requires { EntryIn area.old at }
    ensures { leaves (verdict_number result) area.new ≡ update_entry area.old value.now at }
{
    let entry = Entry { area, at };
    if property_info::is_long(entry) {
        return Err(Refusal::LongEntry);
    }
    value_verdict(value)?;
    // Serial and old value are read before any store: in a damaged area the entry may lie across the backup slot.
    let serial = entry.serial();
    let mut old = [0u8; Entry::VALUE_MAX];
    let size = snapshot(entry, &mut old);
    if size == Entry::VALUE_MAX {
        return Err(Refusal::TooLong);
    }
    if layout::data_size(area) < Backup::AT + size + 1 {
        return Err(Refusal::Damaged);
    }
    // The backup is stored before the serial turns dirty: whoever sees it dirty reads the backup slot.
    set_dirty_backup_area(area, &old[..size]);
    property_info::apply_write(area, at, serial, value);
    Ok(())
}

// Updates the value of a name.
#[tactic(auto, unfolding(crate::specs::Update::update_steps))]
pub fn update(area: &mut [u8], name: &[u8], value: &[u8]) -> Result<(), Refusal>
    ensures { leaves (verdict_number result) area.new ≡ update_steps area.old name.now value.now }
{
    // As in add: taken apart by `let .. else`, and the other branch returns the refusal.
    let searched = property_area::find(area, name);
    let Ok(found) = searched else {
        return searched.and(Ok(()));
    };
    update_entry(area, found.offset as usize, value)
}

// Updates the entry at an offset, once its backup is stored.
#[tactic(auto, unfolding(crate::specs::Update::raw_entry))]
fn raw_entry(area: &mut [u8], at: usize, value: &[u8]) -> Result<(), Refusal>
    ensures { leaves (verdict_number result) area.new ≡ raw_entry area.old value.now at }
{
    let entry = Entry::touch(area, at)?;
    if property_info::is_long(entry) {
        return Err(Refusal::LongEntry);
    }
    value_verdict(value)?;
    let serial = entry.serial();
    property_info::apply_write(area, at, serial, value);
    Ok(())
}

// Stores a backup, then updates the entry at an offset.
#[tactic(auto, unfolding(crate::specs::Update::raw_steps))]
pub fn backup_and_apply_write(
    area: &mut [u8],
    offset: u32,
    backup: &[u8],
    value: &[u8],
) -> Result<(), Refusal>
    ensures { leaves (verdict_number result) area.new ≡ raw_steps area.old offset backup.now value.now }
{
    if !trie::header_ok(area) {
        return Err(Refusal::BadHeader);
    }
    if Backup::SIZE <= backup.len() {
        return Err(Refusal::TooLong);
    }
    if layout::data_size(area) < Backup::AT + backup.len() + 1 {
        return Err(Refusal::Damaged);
    }
    set_dirty_backup_area(area, backup);
    raw_entry(area, offset as usize, value)
}
