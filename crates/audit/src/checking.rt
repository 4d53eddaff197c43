// Check and listing.
ghost use Rattle.std.specs.Prelude.{◌≡◌, true, ◌/◌, ◌≤◌, length, []};
ghost use Rattle.words.specs.Words.{put};
ghost use Rattle.layout.specs.Layout.{word_size};
ghost use Rattle.trie.specs.Header.{header_ok};
ghost use Rattle.audit.specs.Check.{used_of, Judged, blank, CheckSays, lists, listed_answer, ListSays};
ghost use Rattle.sound.specs.Tree.{Tree, listed};
ghost use Rattle.sound.specs.Sound.{Sound};
ghost use Rattle.walk.specs.Model.{front_ok};
ghost use Rattle.audit.specs.View.{judged_answer, count_steps};

use layout::{Backup, Header, Node, Refusal};
use probes::Used;
use trie::header_ok;

// Whether the used mark and the root's namelen, prop, left and right are as they ought to be.
#[tactic(auto, unfolding(walk::specs::Model::front_ok))]
fn front_ok(area: &[u8], used: usize) -> bool
    ensures { result ≡ front_ok area.now used }
{
    if used % 4 != 0 || used < Backup::END || layout::data_size(area) < used {
        return false;
    }
    let root = Node {
        area,
        at: Node::ROOT,
    };
    root.namelen() == 0 && root.prop() == 0 && root.left() == 0 && root.right() == 0
}

// Walks over an area that has an area's header, with scratch enough, and notes its entries in the list; scratch ends zero.
fn survey(area: &[u8], scratch: &mut [u8], list: &mut [u32]) -> Result<usize, Refusal>
    requires { (header_ok area.now ≡ true) × (length area.now / word_size ≤ length scratch.old) }
    ensures clears { scratch.new ≡ blank scratch.old }
    ensures judges { (judged : Judged area.now) → listed_answer result ≡ judged_answer judged }
    ensures notes { (tree : Tree) → Sound area.now (used_of area.now) tree → list.new ≡ put list.old 0 (listed tree) }
{
    words::clear(scratch);
    let mark = words::word(area, Header::USED) as usize;
    if !front_ok(area, mark) {
        return Err(Refusal::Damaged);
    }
    let walked = tour::tour(Used { area, mark }, scratch, list);
    words::clear(scratch);
    Ok(walked?)
}

// How many entries an area has, with the tests that check and listing begin with.
#[tactic(auto, unfolding(crate::specs::Check::survey_steps))]
fn count(area: &[u8], scratch: &mut [u8]) -> Result<usize, Refusal>
    ensures { (judged : Judged area.now) → lists (listed_answer result) scratch.new [] ≡ count_steps area.now scratch.old judged }
{
    if !header_ok(area) {
        return Err(Refusal::BadHeader);
    }
    if scratch.len() < area.len() / 4 {
        return Err(Refusal::ShortBuffer);
    }
    let mut none = [0u32; 1];
    survey(area, scratch, &mut none[..0])
}

// Whether an area is sound. Scratch: area length / 4 bytes or more, with any content; it ends zero unless 8 or scratch's 10 is given.
pub fn check(area: &[u8], scratch: &mut [u8]) -> Result<(), Refusal>
    ensures { CheckSays area.now scratch.old result scratch.new }
{
    count(area, scratch)?;
    Ok(())
}

// Writes the entries' offsets (left side, own entry, children, right side) and answers how many; on any refusal the list is kept.
// Scratch as for check.
#[tactic(auto, unfolding(crate::specs::Check::survey_steps))]
pub fn list(area: &[u8], scratch: &mut [u8], list: &mut [u32]) -> Result<usize, Refusal>
    ensures { ListSays area.now scratch.old list.old result scratch.new list.new }
{
    let entries = count(area, scratch)?;
    if list.len() < entries {
        return Err(Refusal::ShortBuffer);
    }
    survey(area, scratch, list)
}
