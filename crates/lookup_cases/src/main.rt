// The lookup in areas of data/, each with an input, under a line with both names: names of 65,536 and of 65,537 bytes, and one that no line feed ends; no name, the input is empty;
// a file of more than 65,536 bytes, 8 at each name, and before 6; a file that is not there; a folder, which is opened and cannot be read, as the file and as the input; a damaged area.
#![tactic(auto)]

use std::fs;

// An area's file, and the file of the names that are looked up in it.
const CASES: [(&str, &str); 7] = [
    ("settled.area", "long.names"),
    ("settled.area", "none.names"),
    ("large.area", "large.names"),
    ("missing.area", "missing.names"),
    (".", "missing.names"),
    ("settled.area", "."),
    ("damaged.area", "damaged.names"),
];

fn show(rt: &HostRuntime, file: &str, names: &str) {
    let _ = println!(rt; "-- {file} {names}");
    match fs::open(rt, names) {
        Ok(mut input) => programs::lookup_file(rt, file.as_bytes(), &mut input),
        Err(_) => {
            let _ = println!(rt; "no input");
        }
    }
}

fn main(rt: HostRuntime) {
    for (file, names) in CASES {
        show(&rt, file, names);
    }
}
