// How often each call of the vectors was accepted, and refused with each number.
ghost use Rattle.std.specs.Prelude.{◌≤◌, ◌<◌, length};

use replay::Step;

// The largest number of a refusal.
const NUMBERS: u32 = 10;

// The word at a place, if one stands there.
fn word_at(vectors: &[u8], at: usize) -> Option<u32> {
    if vectors.len() < 4 || vectors.len() - 4 < at {
        return None;
    }
    Some(words::word(vectors, at))
}

// What the Rust answered at a record: 0 for accepted, else the refusal. A distance is no refusal, and a store has no answer. A number, since the vectors' own answers are compared with it.
fn number_at(vectors: &[u8], at: usize) -> u32 {
    match replay::read_record(vectors, at) {
        Ok(parts) if !matches!(parts.step, Step::Distance | Step::Poke) => {
            word_at(vectors, parts.answers).unwrap_or(0)
        }
        _ => 0,
    }
}

// Where the record at a place ends, or the vectors' end where none can be read.
fn end_of(vectors: &[u8], at: usize) -> usize
    requires { at < length vectors.now }
    ensures { (at < result) × (result ≤ length vectors.now) }
{
    match replay::read_record(vectors, at) {
        Ok(parts) => parts.checksum + 4,
        Err(_) => vectors.len(),
    }
}

// How many records are of that step and have that answer. A record that is cut counts by its opcode.
fn times(vectors: &[u8], step: Step, number: u32) -> usize {
    let mut count = 0;
    let mut at = 4;
    // Where the next record begins is told by the one before, so this is a `while`.
    while at < vectors.len() {
        let found = word_at(vectors, at).and_then(Step::of);
        if found == Some(step) && number_at(vectors, at) == number {
            count += 1;
        }
        at = end_of(vectors, at);
    }
    count
}

// A line for a call. What cannot be written is lost, and nothing stops at it.
fn say_call(rt: &HostRuntime, vectors: &[u8], step: Step, name: &str) {
    let _ = print!(rt; "{name}: {} accepted", times(vectors, step, 0));
    for number in 1..=NUMBERS {
        let count = times(vectors, step, number);
        if 0 < count {
            let _ = print!(rt; ", {count} refused {number}");
        }
    }
    let _ = println!(rt; "");
}

// A line for each call, in the order of their opcodes.
pub fn say_calls(rt: &HostRuntime, vectors: &[u8]) {
    let calls = [
        (Step::Format, "format"),
        (Step::Add, "add"),
        (Step::Update, "update"),
        (Step::RawUpdate, "raw update"),
        (Step::Find, "find"),
        (Step::Value, "value"),
        (Step::BackupRead, "backup read"),
        (Step::Distance, "distance"),
    ];
    for (step, name) in calls {
        say_call(rt, vectors, step, name);
    }
}
