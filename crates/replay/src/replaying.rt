// All records, one after the other.
ghost use Rattle.std.specs.Prelude.{◌≡◌, ◌<◌, length};
ghost use Rattle.replay.specs.Replay.{nothing, count_record, Fair, end_at, replay_from, replay_steps};

use crate::records::End;
use crate::turns::play_at;

// How many records were replayed, how many of their steps are calls, and how many records differ in an answer or in the area's bytes.
#[derive(Clone, Copy, Debug, PartialEq, Eq)]
pub struct Tally {
    pub records: u32,
    pub calls: u32,
    pub differences: u32,
}

// The records before the end were counted, whatever the end is.
#[derive(Clone, Copy, Debug, PartialEq, Eq)]
pub struct Report {
    pub tally: Tally,
    pub end: End,
}

impl Tally {
    fn nothing() -> Tally
        ensures { result ≡ nothing }
    {
        Tally {
            records: 0,
            calls: 0,
            differences: 0,
        }
    }

    #[tactic(auto, unfolding(crate::specs::Replay::count_record))]
    fn counted(self, call: bool, agrees: bool) -> Tally
        requires { (self.records < 0xffff_ffff) × (Fair self) }
        ensures value { result ≡ count_record self call agrees }
        ensures fair { Fair result }
    {
        Tally {
            records: self.records + 1,
            calls: self.calls + u32::from(call),
            differences: self.differences + u32::from(!agrees),
        }
    }
}

// How the vectors end whose last record ends at a place.
fn end_at(vectors: &[u8], at: usize) -> End
    ensures { result ≡ end_at vectors.now at }
{
    if at == vectors.len() {
        End::Whole
    } else {
        End::Surplus
    }
}

// Replays so many records. Space and buffer are lent apart, since each record takes a part of each.
fn replay_records(vectors: &[u8], count: u32, space: &mut [u8], buffer: &mut [u8]) -> Report
    ensures { result ≡ replay_from vectors.now (length buffer.old) count 4 0 space.old nothing }
{
    let mut tally = Tally::nothing();
    let mut at = 4;
    let mut size = 0;
    for done in 0..count {
        match play_at(vectors, at, size, space, buffer) {
            Ok(turn) => {
                tally = tally.counted(turn.call, turn.agrees);
                at = turn.next;
                size = turn.size;
            }
            Err(end) => return Report { tally, end },
        }
    }
    Report {
        tally,
        end: end_at(vectors, at),
    }
}

// Replays vectors, with the area in the first bytes of the space, and backup reads into the first bytes of the buffer.
#[tactic(auto, unfolding(crate::specs::Replay::replay_steps))]
pub fn replay(vectors: &[u8], space: &mut [u8], buffer: &mut [u8]) -> Report
    ensures { result ≡ replay_steps vectors.now (length space.old) (length buffer.old) }
{
    if vectors.len() < 4 {
        return Report {
            tally: Tally::nothing(),
            end: End::Cut,
        };
    }
    space.fill(0);
    replay_records(vectors, words::word(vectors, 0), space, buffer)
}
