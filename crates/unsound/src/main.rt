// One sound area, and ways of being unsound: each is listed with scratch full of 255 and a list full of 9s. The area:
//
//   112 node "ab", entry 608 "ab" = "w"        264 node "b", left of it, entry 288 "b" = "q"
//   136 node "c" below it, entry 160           388 node "z", right of "b", entry 412, long, its value at 512
//   708 node "d", right of "c", entry 732      used 836
//
// The input has the ways, one to a line: what is changed, an offset, what is put there, and the way's name (breaking.rt).
#![tactic(auto)]

mod breaking;
mod listing;

use listing::list_with;
use streams::{print, read_full};

// Breaks the area in each way of the input.
fn break_all(rt: &HostRuntime, area: &mut [u8]) {
    let mut ways = [0u8; 4096];
    let size = read_full(&mut rt.stdin(), &mut ways);
    breaking::break_by(rt, area, &ways[..size]);
}

fn main(rt: HostRuntime) {
    let mut area = [0u8; 1024];
    break_all(&rt, &mut area);
    breaking::build(&rt, &mut area);
    print(&rt, b"scratch one short");
    list_with(&rt, &area, &mut [0; 255], &mut [0; 8]);
    print(&rt, b"list one short");
    list_with(&rt, &area, &mut [0; 256], &mut [0; 4]);
    print(&rt, b"list as long as needed, scratch longer");
    list_with(&rt, &area, &mut [0; 300], &mut [0; 5]);
    breaking::another_magic(&rt, &mut area);
}
