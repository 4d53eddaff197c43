// The walk: one step at a time, its state by value.
ghost use Rattle.std.specs.Prelude.{◌≡◌, cond, ◌+◌, ◌<◌, length, is_ok, IfOk, IfSome, option_to_list};
ghost use Rattle.words.specs.Words.{put};
ghost use Rattle.walk.specs.Machine.{taken, refused};
ghost use Rattle.walk.specs.Model.{owner_for, link_at, place_at, enter_at, ended};
ghost use Rattle.probes.specs.Limits.{word_limit, place_limit};
ghost use Rattle.tour.specs.View.{dir_of, Went, Stepped, toured, Noted};

use crate::phases::{Dir, Phase};
use crate::place::Walk;
use layout::Node;
use probes::{Damaged, NodeNumber, Used, read_number, take, write_number};
use works::{Sibling, own_work};

// Bytes of the data for each step of the walk: a node takes 24 bytes or more, and four steps.
const STEP: usize = 6;

// A node and a direction stand side by side in four steps: a pair of them would be one more name for a link.
// The owner of what hangs from node p in a direction.
fn owner_for(marks: &[u8], p: NodeNumber, dir: Dir) -> NodeNumber
    ensures { result.word ≡ owner_for marks.now p.word (dir_of dir) }
{
    match dir {
        Dir::Children => p,
        Dir::Left | Dir::Right => p.owner(marks),
    }
}

// The link of node n in a direction.
fn link_at(area: &[u8], n: NodeNumber, dir: Dir) -> usize
    ensures { (result ≡ link_at area.now (dir_of dir) n.word) × (result < word_limit) }
{
    let link = match dir {
        Dir::Left => Node::LEFT,
        Dir::Children => Node::CHILDREN,
        Dir::Right => Node::RIGHT,
    };
    n.field(area, link) as usize
}

// Enters the node at a link, come to from node p: takes its words and writes its record. Its number.
#[tactic(auto, unfolding(walk::specs::Model::enter_at, walk::specs::Marks::can_take))]
fn enter(
    used: Used<'_>,
    marks: &mut [u8],
    link: usize,
    p: NodeNumber,
    dir: Dir,
) -> Result<NodeNumber, Damaged>
    requires { link < word_limit }
    ensures stands { IfOk result (λ n. n.word ≡ place_at link) }
    ensures says { cond (is_ok result) (taken marks.new) refused ≡ enter_at used.entry.area.now used.entry.mark marks.old link p.word (dir_of dir) }
{
    let owner = owner_for(marks, p, dir);
    let k = used.node_room(link).ok_or(Damaged)?;
    let n = NodeNumber { word: link / 4 };
    take(marks, n.word, k)?;
    write_number(marks, n.word, p.word * 3 + dir.number());
    write_number(marks, n.word + 3, owner.word);
    Ok(n)
}

// Along the link of node p in a direction, or on at node p if there is none.
fn go(
    used: Used<'_>,
    marks: &mut [u8],
    p: NodeNumber,
    dir: Dir,
    before: Option<Sibling>,
) -> Result<Walk, Damaged>
    ensures { Went used.entry.area.now used.entry.mark marks.old p dir before result marks.new }
{
    let link = link_at(used.area, p, dir);
    if link == 0 {
        let phase = dir.next();
        return Ok(Walk {
            cur: p,
            phase,
            before,
        });
    }
    let cur = enter(used, marks, link, p, dir)?;
    Ok(Walk {
        cur,
        phase: Phase::On(Dir::Left),
        before,
    })
}

// One step from a node, and the entry that it saw.
pub fn step(used: Used<'_>, marks: &mut [u8], w: Walk) -> Result<(Walk, Option<usize>), Damaged>
    requires { 0 < w.cur.word }
    ensures says { Stepped used.entry.area.now used.entry.mark w marks.old result marks.new }
    ensures bounds { IfOk result (λ step. IfSome step.1 (λ at. at < word_limit)) }
{
    let n = w.cur;
    // The phases are known: a match on them shows the walk's order, which closures would hide.
    match w.phase {
        Phase::On(Dir::Left) => Ok((go(used, marks, n, Dir::Left, w.before)?, None)),
        Phase::On(Dir::Children) => {
            let seen = own_work(used, marks, n, w.before)?;
            Ok((go(used, marks, n, Dir::Children, None)?, seen))
        }
        Phase::On(Dir::Right) => {
            let here = Some(Sibling { node: n });
            Ok((go(used, marks, n, Dir::Right, here)?, None))
        }
        Phase::Up => {
            let came = read_number(marks, n.word);
            let phase = Dir::from_number(came % 3).next();
            let up = Walk {
                cur: NodeNumber { word: came / 3 },
                phase,
                before: w.before,
            };
            Ok((up, None))
        }
    }
}

// Notes an entry that was seen at a place of the list, if it has that place; the next place.
#[tactic(auto, unfolding(words::specs::Words::put))]
fn note(list: &mut [u32], i: usize, seen: Option<usize>) -> usize
    requires { (i < place_limit) × IfSome seen (λ at. at < word_limit) }
    ensures { (result ≡ i + length (option_to_list seen)) × (list.new ≡ put list.old i (option_to_list seen)) }
{
    let Some(at) = seen else {
        return i;
    };
    if i < list.len() {
        list[i] = at as u32;
    }
    i + 1
}

// The walk from the root's children, over marks that are all zero, noting entries in the list: how many it saw.
pub fn tour(used: Used<'_>, marks: &mut [u8], list: &mut [u32]) -> Result<usize, Damaged>
    ensures ends { is_ok result ≡ ended (toured used.entry.area.now used.entry.mark marks.old) }
    ensures notes { IfOk result (λ entries. Noted (toured used.entry.area.now used.entry.mark marks.old) entries list.old list.new) }
{
    let root = NodeNumber { word: 0 };
    let mut w = go(used, marks, root, Dir::Children, None)?;
    let mut entries = 0;
    for _ in 0..layout::data_size(used.area) / STEP {
        if w.cur.word == 0 {
            return Ok(entries);
        }
        let (next, seen) = step(used, marks, w)?;
        entries = note(list, entries, seen);
        w = next;
    }
    if w.cur.word == 0 {
        return Ok(entries);
    }
    Err(Damaged)
}
