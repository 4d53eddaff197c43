// A node's own work: its place in the order, its entry, the entry's value.
ghost use Rattle.std.specs.Prelude.{◌≡◌, cond, [], ◌∷◌, ◌≤◌, ◌<◌, is_ok, IfOk, IfSome};
ghost use Rattle.layout.specs.Layout.{EntryIn, byte_of};
ghost use Rattle.walk.specs.Machine.{halt, done};
ghost use Rattle.walk.specs.Model.{room_to, value_work, entry_work, own_work};
ghost use Rattle.probes.specs.Limits.{word_limit, place_limit};
ghost use Rattle.works.specs.View.{before_of, own_done};

use crate::paths::is_path;
use crate::sibling::Sibling;
use crate::siblings::follows;
use layout::{Entry, Header, Node};
use probes::{Damaged, NodeNumber, Used, take};

// The words of an object at an offset whose text ends with a zero at a place.
fn room_to(at: usize, zero: usize) -> usize
    requires { (byte_of at ≤ zero) × (zero < place_limit) }
    ensures { result ≡ room_to at zero }
{
    (zero + 1 - (Header::SIZE + at)).div_ceil(4)
}

// The marks stand beside the area, since they are lent to be written; so does an offset at which an entry lies, for it is that area's.
// What is below the limit of words is an offset here, a count of words or a link there, and a place or a number in probes: no one type is all of them.

// Whether a value is as it ought to be: a slot with a zero, or a text behind the entry's k words, whose words it takes.
#[tactic(auto, unfolding(walk::specs::Model::value_work))]
fn value_work(used: Used<'_>, marks: &mut [u8], at: usize, k: usize) -> Result<(), Damaged>
    requires { (EntryIn used.area.now at) × (k < word_limit) }
    ensures { cond (is_ok result) (done marks.new (at ∷ [])) halt ≡ value_work used.entry.area.now used.entry.mark marks.old at k }
{
    let entry = Entry {
        area: used.area,
        at,
    };
    if !property_info::is_long(entry) {
        let end = Header::SIZE + at + Entry::SIZE;
        let zero = words::first(used.area, 0, Header::SIZE + at + Entry::VALUE, end);
        if end <= zero {
            return Err(Damaged);
        }
        return Ok(());
    }
    let relative = entry.long_offset() as usize;
    if relative < k * 4 {
        return Err(Damaged);
    }
    let far = at + relative;
    let zero = used.text_end(far, Header::SIZE + far).ok_or(Damaged)?;
    take(marks, far / 4, room_to(far, zero))
}

// Whether the entry at an offset is node n's: its name the node's path, its words free; it takes them.
#[tactic(auto, unfolding(walk::specs::Model::entry_work))]
fn entry_work(used: Used<'_>, marks: &mut [u8], n: NodeNumber, at: usize) -> Result<(), Damaged>
    requires { (0 < at) × (at < word_limit) }
    ensures { cond (is_ok result) (done marks.new (at ∷ [])) halt ≡ entry_work used.entry.area.now used.entry.mark marks.old n.word at }
{
    let from = Header::SIZE + at + Entry::SIZE;
    let zero = used.text_end(at, from).ok_or(Damaged)?;
    if !is_path(used.area, marks, n, from, zero) {
        return Err(Damaged);
    }
    let k = room_to(at, zero);
    take(marks, at / 4, k)?;
    value_work(used, marks, at, k)
}

// A node's own work, with the node before it: its entry's offset, if it has one.
#[tactic(auto, unfolding(walk::specs::Model::own_work, walk::specs::Model::entry_work))]
pub fn own_work(
    used: Used<'_>,
    marks: &mut [u8],
    n: NodeNumber,
    before: Option<Sibling>,
) -> Result<Option<usize>, Damaged>
    ensures says { own_done result marks.new ≡ own_work used.entry.area.now used.entry.mark marks.old n.word (before_of before) }
    ensures bounds { IfOk result (λ seen. IfSome seen (λ at. (0 < at) × (at < word_limit))) }
{
    if !follows(used.area, before, n) {
        return Err(Damaged);
    }
    let at = n.field(used.area, Node::PROP) as usize;
    if at == 0 {
        return Ok(None);
    }
    entry_work(used, marks, n, at)?;
    Ok(Some(at))
}
