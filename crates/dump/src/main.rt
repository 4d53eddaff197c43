// Prints the names and values of area.bin. Here: the second settled example.
#![tactic(auto)]

fn main(rt: HostRuntime) {
    programs::dump(&rt);
}
