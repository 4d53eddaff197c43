// Listing an area, with buffers that are long enough, too short, and longer than needed.
// What a list's places hold before an area is listed.
const UNWRITTEN: u32 = 9;

// Prints what was written to a list, or that it was kept.
fn say_list(rt: &HostRuntime, list: &[u32]) {
    if list.first() == Some(&UNWRITTEN) {
        let _ = println!(rt; ", list kept");
        return;
    }
    let _ = print!(rt; ", list");
    for offset in list {
        if *offset != UNWRITTEN {
            let _ = print!(rt; " {offset}");
        }
    }
    let _ = println!(rt; "");
}

// Lists an area with scratch and a list of these lengths, and says what became of both.
pub fn list_with(rt: &HostRuntime, area: &[u8], scratch: &mut [u8], list: &mut [u32]) {
    scratch.fill(255);
    list.fill(UNWRITTEN);
    match audit::list(area, scratch, list) {
        Ok(count) => {
            let _ = print!(rt; ": entries {count}");
        }
        Err(why) => {
            let _ = print!(rt; ": refused {}", why.number());
        }
    }
    if scratch.iter().all(|byte| *byte == 0) {
        let _ = print!(rt; ", scratch zero");
    }
    say_list(rt, list);
}

// Lists an area with buffers that are long enough.
pub fn list(rt: &HostRuntime, area: &[u8]) {
    list_with(rt, area, &mut [0; 256], &mut [0; 8]);
}
