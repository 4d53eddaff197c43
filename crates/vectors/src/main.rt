// Replays the vectors of data/vectors.bin on the proved calls, and counts the differences.
//
// The vectors were written by the oracle (`oracle/vectors`): it runs the published Rust, rsproperties at commit baa8c490b1, compiled unchanged, and
// writes each step with the Rust's answers and the checksum of the area's bytes after it. The steps are a sample of all families of inputs, mostly on
// areas of at most 4,096 bytes, with every triple of family, call and refusal that a million calls of the comparison show; then, for each broken twin that the
// sample does not tell from the Rust, the smallest case that does.
// The crate replay reads the format. Its contract says that the counts are those of the definitions: no difference here means that the definitions
// of the calls, and not only this code, give the Rust's answers at every step, and bytes with the checksum of the Rust's.
#![tactic(auto)]

ghost use Rattle.io.specs.Counts.{IsPrefixLen};

mod counting;

use replay::{End, Report};
use std::fs;
use streams::read_full;

// Why the replay stopped, where it did not come to the end of the vectors.
fn stop(end: End) -> &'static str {
    match end {
        End::Whole => "",
        End::Cut => "; the data ends within a record",
        End::Unknown => "; a record has an unknown opcode",
        End::NoRoom => "; a record asks for more bytes than the buffers have",
        End::Surplus => "; bytes are left behind the last record",
    }
}

// What cannot be written is lost, and nothing stops at it.
fn show(rt: &HostRuntime, report: Report) {
    let tally = report.tally;
    let _ = println!(rt;
        "{} records, {} calls, {} differences{}",
        tally.records,
        tally.calls,
        tally.differences,
        stop(report.end)
    );
}

// Reads the vectors into the start of a buffer. A file that cannot be read counts as empty; one that is longer is cut.
fn load(rt: &HostRuntime, buf: &mut [u8]) -> usize
    ensures { IsPrefixLen result buf.new }
{
    match fs::open(rt, "vectors.bin") {
        Ok(mut file) => read_full(&mut file, buf),
        Err(_) => 0,
    }
}

fn run(rt: &HostRuntime, vectors: &[u8]) {
    let mut space = [0u8; 131080];
    let mut buffer = [0u8; 300];
    counting::say_calls(rt, vectors);
    show(rt, replay::replay(vectors, &mut space, &mut buffer));
}

fn main(rt: HostRuntime) {
    let mut bytes = [0u8; 400000];
    let n = load(&rt, &mut bytes);
    run(&rt, &bytes[..n]);
}
