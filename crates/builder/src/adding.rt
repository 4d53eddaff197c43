// Add: the name's tests, the walk, the entry.
ghost use Rattle.std.specs.Prelude.{◌≡◌};
ghost use Rattle.names.specs.Names.{segments};
ghost use Rattle.layout.specs.Refusals.{leaves, verdict_number};
ghost use Rattle.allocation.specs.Steps.{outcome};
ghost use Rattle.builder.specs.Add.{any_empty, name_verdict, add_steps};

use layout::Refusal;
use names::{NameCursor, Segment};

// Whether a segment of a name is empty.
fn has_empty(name: &[u8]) -> bool
    ensures { result ≡ any_empty (segments name.now) }
{
    // The cursor goes by value, so it is no iterator.
    let mut cursor = NameCursor::start();
    while let Some(Segment { from, to, next }) = cursor.step(name) {
        if from == to {
            return true;
        }
        cursor = next;
    }
    false
}

// Whether a name can be added. A zero byte in it would end the stored name early, and it would not be found again.
#[tactic(auto, unfolding(crate::specs::Add::name_verdict))]
fn name_verdict(name: &[u8]) -> Result<(), Refusal>
    ensures { result ≡ name_verdict name.now }
{
    // The scan that `has_zero` is defined by: `contains` would need a proof that it says the same.
    if words::first(name, 0, 0, name.len()) < name.len() {
        return Err(Refusal::ZeroByte);
    }
    if has_empty(name) {
        return Err(Refusal::EmptySegment);
    }
    Ok(())
}

// Adds a name with a value. A name that is there already keeps its value.
#[tactic(auto, unfolding(allocation::specs::View::seen, crate::specs::Add::add_steps))]
pub fn add(area: &mut [u8], name: &[u8], value: &[u8]) -> Result<(), Refusal>
    ensures { leaves (verdict_number result) area.new ≡ outcome (add_steps area.old name.now value.now) }
{
    if !trie::header_ok(area) {
        return Err(Refusal::BadHeader);
    }
    // The whole name is judged before the walk: refused on the way, it would leave nodes behind that belong to no name.
    name_verdict(name)?;
    // The walk's answer is taken apart by `let .. else`, a rule of the project; the other branch returns the refusal.
    let walked = nodes::add_path(area, name);
    let Ok(node) = walked else {
        return walked.and(Ok(()));
    };
    entries::add_entry(area, node, name, value)?;
    Ok(())
}
