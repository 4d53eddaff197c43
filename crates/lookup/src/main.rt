// Prints the value of each name that standard input holds, one to a line. Here: names with and without an entry, malformed ones, an empty line.
#![tactic(auto)]

fn main(rt: HostRuntime) {
    programs::lookup(&rt);
}
