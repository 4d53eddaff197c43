// Why a call refuses, and the number that it answers with.
ghost use Rattle.std.specs.Prelude.{◌≡◌};
ghost use Rattle.layout.specs.Refusals.{number_of, verdict_number};

#[derive(Clone, Copy, PartialEq, Eq)]
pub enum Refusal {
    // A zero byte in an added name.
    ZeroByte = 1,
    // A name with an empty segment.
    EmptySegment = 2,
    // No such name.
    Missing = 3,
    // No room left in the area.
    NoRoom = 4,
    // The area's bytes are no area's.
    Damaged = 5,
    // A value, or a backup, that no slot holds.
    TooLong = 6,
    // An entry whose long value is not updated.
    LongEntry = 7,
    // A length, magic or version that is no area's.
    BadHeader = 8,
    // A size over 32 bits.
    TooLarge = 9,
    // Scratch, or a list of offsets, too short.
    ShortBuffer = 10,
}

impl Refusal {
    pub fn number(self) -> u32
        ensures { result ≡ number_of self }
    {
        self as u32
    }
}

// The number of a verdict, the answer of a call that has no other result: 0 where it accepts.
pub fn verdict_number(verdict: Result<(), Refusal>) -> u32
    ensures { result ≡ verdict_number verdict }
{
    match verdict {
        Ok(()) => 0,
        Err(why) => why.number(),
    }
}
