// What the entry at an offset shows: its value and its name, as parts of the lent area, and its serial.
ghost use Rattle.std.specs.Prelude.{◌≡◌, IfOk};
ghost use Rattle.layout.specs.declared.records.Entry.{Entry};
ghost use Rattle.layout.specs.declared.text.Span.{Span};
ghost use Rattle.layout.specs.Refusals.{accepted, answered};
ghost use Rattle.property_area.specs.Value.{part_answer, touch_steps, value_steps, name_steps, part_or_none, serial_answer, serial_steps, LiesIn};

use layout::{Entry, Refusal, Span};
use trie::header_ok;

// The entry at an offset, touched once the header is tested.
#[tactic(auto, unfolding(crate::specs::Value::touch_steps))]
fn touched_entry(area: &[u8], offset: u32) -> Result<Entry<'_>, Refusal>
    ensures says { answered (λ (entry : Entry). entry.at) result ≡ touch_steps area.now offset (accepted offset) }
    ensures there { IfOk result (λ entry. entry.area ≡ area.entry) }
{
    if !header_ok(area) {
        return Err(Refusal::BadHeader);
    }
    Entry::touch(area, offset as usize)
}

// Where the value of the entry at an offset stands.
#[tactic(auto, unfolding(crate::specs::Value::touch_steps))]
pub fn value(area: &[u8], offset: u32) -> Result<Span, Refusal>
    ensures { part_answer result ≡ value_steps area.now offset }
{
    let entry = touched_entry(area, offset)?;
    property_info::property_value(entry).ok_or(Refusal::Damaged)
}

// Where the full dotted name stands, which a zero ends.
#[tactic(auto, unfolding(crate::specs::Value::touch_steps))]
pub fn name(area: &[u8], offset: u32) -> Result<Span, Refusal>
    ensures { part_answer result ≡ name_steps area.now offset }
{
    let named = touched_entry(area, offset)?;
    property_info::property_info_name(named).ok_or(Refusal::Damaged)
}

// The serial as it stands, which counts the entry's updates: the crate serials says what its bits mean.
#[tactic(auto, unfolding(crate::specs::Value::touch_steps))]
pub fn serial(area: &[u8], offset: u32) -> Result<u32, Refusal>
    ensures { serial_answer result ≡ serial_steps area.now offset }
{
    let counted = touched_entry(area, offset)?;
    Ok(counted.serial())
}

// A part itself, or an empty part where it is refused.
fn part_bytes(area: &[u8], place: Result<Span, Refusal>) -> &[u8]
    requires { IfOk place (LiesIn area.now) }
    ensures { result.now ≡ part_or_none area.now (part_answer place) }
{
    match place {
        Ok(Span { from, to }) => &area[from..to],
        Err(_) => &area[..0],
    }
}

// The value itself: that part of the area, or an empty part where `value` refuses.
pub fn value_bytes(area: &[u8], offset: u32) -> &[u8]
    ensures { result.now ≡ part_or_none area.now (value_steps area.now offset) }
{
    part_bytes(area, value(area, offset))
}

// The name itself: that part of the area, or an empty part where `name` refuses.
pub fn name_bytes(area: &[u8], offset: u32) -> &[u8]
    ensures { result.now ≡ part_or_none area.now (name_steps area.now offset) }
{
    part_bytes(area, name(area, offset))
}
