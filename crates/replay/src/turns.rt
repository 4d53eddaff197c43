// One record, replayed and compared.
ghost use Rattle.std.specs.Prelude.{◌≡◌, length};
ghost use Rattle.replay.specs.Records.{Lies};
ghost use Rattle.replay.specs.Turns.{agrees, compares, compare, play_record, turns, turn_on, turn_at};

use crate::checksum::adler32;
use crate::records::{End, Parts, read_record, word_of};
use crate::steps::{Answers, perform};

// What a record leaves: where the next begins, how many bytes of the space are the area, whether its step is a call, and whether all that is compared agrees.
#[derive(Clone, Copy, Debug)]
pub struct Turn {
    pub next: usize,
    pub size: usize,
    pub call: bool,
    pub agrees: bool,
}

// A record, with the vectors that it lies in.
#[derive(Clone, Copy)]
struct Record<'a> {
    vectors: &'a [u8],
    parts: Parts,
    ghost lies: { Lies vectors.now parts },
}

impl<'a> Record<'a> {
    // Whether the record has these answers and this checksum.
    #[tactic(auto, unfolding(crate::specs::Turns::agrees))]
    fn expects(self, given: Answers, sum: u32) -> bool
        ensures { result ≡ agrees self.entry.vectors.now self.entry.parts given sum }
    {
        let from = self.parts.answers;
        let count = self.parts.step.answers();
        let expected = Answers {
            first: word_of(self.vectors, from, count, 0),
            second: word_of(self.vectors, from, count, 1),
            third: word_of(self.vectors, from, count, 2),
        };
        given == expected && sum == words::word(self.vectors, self.parts.checksum)
    }

    // Makes the record's step on an area, and compares.
    fn agrees(self, area: &mut [u8], buffer: &mut [u8]) -> bool
        ensures { compares result area.new ≡ compare self.entry.vectors.now self.entry.parts (play_record self.entry.vectors.now self.entry.parts area.old (length buffer.old)) }
    {
        let parts = self.parts;
        let one = &self.vectors[parts.strings..parts.middle];
        let other = &self.vectors[parts.middle..parts.answers];
        let given = perform(parts, one, other, area, buffer);
        self.expects(given, adler32(area))
    }

    // Replays the record, with the area in the first bytes of the space.
    #[tactic(auto, unfolding(crate::specs::Turns::turn_on))]
    fn play(self, size: usize, space: &mut [u8], buffer: &mut [u8]) -> Result<Turn, End>
        ensures { turns result space.new ≡ turn_on self.entry.vectors.now self.entry.parts size space.old (length buffer.old) }
    {
        let parts = self.parts;
        let wanted = parts.step.wanted(parts.first);
        if space.len() < size || buffer.len() < wanted {
            return Err(End::NoRoom);
        }
        let agrees = self.agrees(&mut space[..size], &mut buffer[..wanted]);
        Ok(Turn {
            next: parts.checksum + 4,
            size,
            call: parts.step.is_call(),
            agrees,
        })
    }
}

// Replays the record at a place, where so many bytes of the space were the area.
#[tactic(auto, unfolding(crate::specs::Turns::turn_at))]
pub fn play_at(
    vectors: &[u8],
    at: usize,
    size: usize,
    space: &mut [u8],
    buffer: &mut [u8],
) -> Result<Turn, End>
    ensures { turns result space.new ≡ turn_at vectors.now at size space.old (length buffer.old) }
{
    let parts = read_record(vectors, at)?;
    let size = parts.step.area_size(parts.first, size);
    let record = Record { vectors, parts };
    record.play(size, space, buffer)
}
