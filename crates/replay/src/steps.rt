// The steps: each makes one call, or one store that damages the area, and gives what is compared with the record's answers.
ghost use Rattle.std.specs.Prelude.{◌≡◌, length, replicate};
ghost use Rattle.layout.specs.Refusals.{verdict_number};
ghost use Rattle.property_area.specs.Find.{find_steps};
ghost use Rattle.property_area.specs.Value.{value_steps};
ghost use Rattle.property_area.specs.Backup.{backup_steps};
ghost use Rattle.replay.specs.Steps.{answers, found_reply, part_reply, filler, backup_answers, poked, plays, play_step};

use crate::checksum::adler32;
use crate::records::{Parts, Step};
use layout::{Refusal, Span};
use property_area::Found;

// What a step answers, in the order in which a record has it; 0 where there are fewer than three.
#[derive(Clone, Copy, Debug, PartialEq, Eq)]
pub struct Answers {
    pub first: u32,
    pub second: u32,
    pub third: u32,
}

impl Answers {
    fn one(first: u32) -> Answers
        ensures { result ≡ answers first 0 0 }
    {
        Answers {
            first,
            second: 0,
            third: 0,
        }
    }
}

// A verdict's number alone.
fn alone(verdict: Result<(), Refusal>) -> Answers
    ensures { result ≡ answers (verdict_number verdict) 0 0 }
{
    Answers::one(layout::verdict_number(verdict))
}

// The entry of a name, and the low word of the count of nodes compared.
fn found(area: &[u8], name: &[u8]) -> Answers
    ensures { result ≡ found_reply (find_steps area.now name.now) }
{
    match property_area::find(area, name) {
        Ok(Found { offset, compared }) => Answers {
            first: 0,
            second: offset,
            third: (compared % 0x1_0000_0000) as u32,
        },
        Err(why) => Answers::one(why.number()),
    }
}

// Where the value of an entry starts, counted from the area's first byte, and its length.
fn valued(area: &[u8], entry: u32) -> Answers
    ensures { result ≡ part_reply (value_steps area.now entry) }
{
    match property_area::value(area, entry) {
        Ok(Span { from, to }) => Answers {
            first: 0,
            second: from as u32,
            third: (to - from) as u32,
        },
        Err(why) => Answers::one(why.number()),
    }
}

// What a buffer holds before a backup read: a refusal keeps it.
const FILLER: u8 = 0xee;

// A backup read into the whole buffer, and the buffer's checksum.
fn backup(area: &[u8], buffer: &mut [u8]) -> Answers
    ensures { result ≡ backup_answers (backup_steps area.now (replicate (length buffer.old) filler)) }
{
    buffer.fill(FILLER);
    let verdict = property_area::read_dirty_backup(area, buffer);
    Answers {
        first: layout::verdict_number(verdict),
        second: adler32(buffer),
        third: 0,
    }
}

// Stores a word at a place counted from the area's first byte, if it lies within the area.
#[tactic(auto, unfolding(crate::specs::Steps::poked))]
fn poke(area: &mut [u8], at: usize, word: u32)
    ensures { area.new ≡ poked area.old at word }
{
    if 4 <= area.len() && at <= area.len() - 4 {
        words::put_word(area, at, word);
    }
}

// Makes the step of a record, with its byte strings.
pub fn perform(
    parts: Parts,
    one: &[u8],
    other: &[u8],
    area: &mut [u8],
    buffer: &mut [u8],
) -> Answers
    ensures { plays result area.new ≡ play_step parts.step parts.first parts.second one.now other.now area.old (length buffer.old) }
{
    // The steps are known, and each takes other arguments: a match on them is plainer than closures.
    match parts.step {
        Step::Format => alone(builder::format(area)),
        Step::Add => alone(builder::add(area, one, other)),
        Step::Update => alone(updates::update(area, one, other)),
        Step::RawUpdate => alone(updates::backup_and_apply_write(area, parts.first, one, other)),
        Step::Find => found(area, one),
        Step::Value => valued(area, parts.first),
        Step::BackupRead => backup(area, buffer),
        Step::Distance => Answers::one(counters::update_distance(parts.first, parts.second)),
        Step::Poke => {
            poke(area, parts.first as usize, parts.second);
            Answers::one(0)
        }
    }
}
