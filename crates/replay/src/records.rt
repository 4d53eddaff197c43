// A record of the vectors, taken apart.
ghost use Rattle.std.specs.Prelude.{◌≡◌, ◌+◌, ◌*◌, ◌≤◌, ◌<◌, length, IfOk};
ghost use Rattle.replay.specs.Records.{step_of, arguments_of, strings_of, answers_of, is_call, area_size, wanted_of, word_of, parts_at, read_parts, read_record, Lies};

// The steps, in the order of their opcodes.
#[derive(Clone, Copy, Debug, PartialEq, Eq)]
pub enum Step {
    Format,
    Add,
    Update,
    RawUpdate,
    Find,
    Value,
    BackupRead,
    Distance,
    Poke,
}

impl Step {
    // The step with an opcode, if there is one. A `TryFrom` would say how the vectors end, which is the reader's to say.
    #[tactic(auto, unfolding(crate::specs::Records::step_of))]
    pub fn of(opcode: u32) -> Option<Step>
        ensures { result ≡ step_of opcode }
    {
        match opcode {
            1 => Some(Step::Format),
            2 => Some(Step::Add),
            3 => Some(Step::Update),
            4 => Some(Step::RawUpdate),
            5 => Some(Step::Find),
            6 => Some(Step::Value),
            7 => Some(Step::BackupRead),
            8 => Some(Step::Distance),
            9 => Some(Step::Poke),
            _ => None,
        }
    }

    // What a step has: counts by cases, and no step is run by them.
    // How many words a record has behind its opcode.
    pub fn arguments(self) -> usize
        ensures { (result ≡ arguments_of self) × (result ≤ 3) }
    {
        match self {
            Step::Format | Step::Find | Step::Value | Step::BackupRead => 1,
            Step::Add | Step::Update | Step::Distance | Step::Poke => 2,
            Step::RawUpdate => 3,
        }
    }

    // How many byte strings. Their lengths are the last of the arguments.
    pub fn strings(self) -> usize
        ensures { (result ≡ strings_of self) × (result ≤ arguments_of self) }
    {
        match self {
            Step::Add | Step::Update | Step::RawUpdate => 2,
            Step::Find => 1,
            _ => 0,
        }
    }

    // How many words of answers.
    pub fn answers(self) -> usize
        ensures { (result ≡ answers_of self) × (result ≤ 3) }
    {
        match self {
            Step::Find | Step::Value => 3,
            Step::BackupRead => 2,
            Step::Poke => 0,
            _ => 1,
        }
    }

    // Whether the step is a call: a store that damages the area is none.
    pub fn is_call(self) -> bool
        ensures { result ≡ is_call self }
    {
        !matches!(self, Step::Poke)
    }

    // How many bytes of the space are the area while the step is made: a format says it, the others keep it.
    pub fn area_size(self, first: u32, size: usize) -> usize
        ensures { result ≡ area_size self first size }
    {
        match self {
            Step::Format => first as usize,
            _ => size,
        }
    }

    // How many bytes of the buffer the step fills.
    pub fn wanted(self, first: u32) -> usize
        ensures { result ≡ wanted_of self first }
    {
        match self {
            Step::BackupRead => first as usize,
            _ => 0,
        }
    }
}

// How the vectors end.
#[derive(Clone, Copy, Debug, PartialEq, Eq)]
pub enum End {
    // With the last of their records.
    Whole,
    // Within a record.
    Cut,
    // With an opcode that no step has.
    Unknown,
    // With a record that asks for more than the lent buffers hold.
    NoRoom,
    // Bytes are left behind the last record.
    Surplus,
}

// Where the parts of a record stand. Its byte strings are vectors[strings..middle] and vectors[middle..answers].
#[derive(Clone, Copy, Debug)]
pub struct Parts {
    pub step: Step,
    // The first two arguments, 0 where there are fewer.
    pub first: u32,
    pub second: u32,
    pub strings: usize,
    pub middle: usize,
    pub answers: usize,
    pub checksum: usize,
}

// One of some words that stand from a place on, or 0 where there are fewer: so the answers and arguments of every record are three words and two.
#[tactic(auto, unfolding(crate::specs::Records::word_of))]
pub fn word_of(vectors: &[u8], from: usize, count: usize, index: usize) -> u32
    requires { from + 4 * count ≤ length vectors.now }
    ensures { result ≡ word_of vectors.now from count index }
{
    if count <= index {
        return 0;
    }
    words::word(vectors, from + 4 * index)
}

// The record of a step, whose arguments begin at a place.
#[tactic(auto, unfolding(crate::specs::Records::parts_at))]
fn read_parts(vectors: &[u8], step: Step, from: usize) -> Result<Parts, End>
    requires { from ≤ length vectors.now }
    ensures value { result ≡ read_parts vectors.now (parts_at vectors.now step from) }
    ensures lies { IfOk result (λ p. (from ≤ p.strings) × Lies vectors.now p) }
{
    let arguments = step.arguments();
    if vectors.len() - from < 4 * arguments {
        return Err(End::Cut);
    }
    let strings = from + 4 * arguments;
    let count = step.strings();
    let lengths = strings - 4 * count;
    let one = word_of(vectors, lengths, count, 0) as usize;
    let other = word_of(vectors, lengths, count, 1) as usize;
    let expected = 4 * step.answers();
    if vectors.len() - strings < one + other + expected + 4 {
        return Err(End::Cut);
    }
    let middle = strings + one;
    let answers = middle + other;
    Ok(Parts {
        step,
        first: word_of(vectors, from, arguments, 0),
        second: word_of(vectors, from, arguments, 1),
        strings,
        middle,
        answers,
        checksum: answers + expected,
    })
}

// The record that begins at a place, or how the vectors end there.
#[tactic(auto, unfolding(crate::specs::Records::read_record))]
pub fn read_record(vectors: &[u8], at: usize) -> Result<Parts, End>
    ensures value { result ≡ read_record vectors.now at }
    ensures lies { IfOk result (λ p. (at < p.strings) × Lies vectors.now p) }
{
    if vectors.len() < 4 || vectors.len() - 4 < at {
        return Err(End::Cut);
    }
    let step = Step::of(words::word(vectors, at)).ok_or(End::Unknown)?;
    read_parts(vectors, step, at + 4)
}
