// The dump of each file of data/, under a line with its name: an empty file, one a byte short of a header, a sound area of more than 65,536 bytes, one of 65,536 bytes full of
// energy pulses, one with 526 entries, the most that a file can have, a damaged one, a file that is not there, a folder, which is opened and cannot be read, and an area with a
// long value, an empty one, and bytes that are escaped.
#![tactic(auto)]

const FILES: [&str; 9] = [
    "empty.area",
    "short.area",
    "large.area",
    "largest.area",
    "most.area",
    "damaged.area",
    "missing.area",
    ".",
    "values.area",
];

fn main(rt: HostRuntime) {
    for file in FILES {
        let _ = println!(rt; "-- {file}");
        programs::dump_file(&rt, file.as_bytes());
    }
}
