// Runs the settled examples: answers, and the words of the area that they speak of.
#![tactic(auto)]

use layout::{Entry, Header, Refusal};
use property_area::Found;
use streams::print;

// What find and value answer for a name.
fn show(rt: &HostRuntime, area: &[u8], name: &[u8]) {
    print(rt, b"  find ");
    print(rt, name);
    match property_area::find(area, name) {
        Ok(Found { offset, compared }) => {
            let _ = print!(rt; ": entry {offset}, nodes compared {compared}, value ");
            print(rt, property_area::value_bytes(area, offset));
        }
        Err(why) => {
            let _ = print!(rt; ": refused {}", why.number());
        }
    }
    print(rt, b"\n");
}

// What a call answered, and the used mark, or nothing where there is no room for one.
fn answer(rt: &HostRuntime, area: &[u8], verdict: Result<(), Refusal>) {
    match verdict {
        Ok(()) => print(rt, b": accepted"),
        Err(why) => {
            let _ = print!(rt; ": refused {}", why.number());
        }
    }
    if 4 <= area.len() {
        let _ = print!(rt; ", used {}", words::word(area, Header::USED));
    }
    print(rt, b"\n");
}

// A word of the data, by its offset.
fn word(rt: &HostRuntime, area: &[u8], what: &str, offset: usize) {
    if offset < 4096 && Header::SIZE + offset + 4 <= area.len() {
        let word = words::word(area, Header::SIZE + offset);
        let _ = println!(rt; "  {what} at {offset}: {word}");
    }
}

// A call of a name, by its word, and what it answered.
fn say_call(rt: &HostRuntime, area: &[u8], word: &[u8], name: &[u8], verdict: Result<(), Refusal>) {
    print(rt, word);
    print(rt, name);
    answer(rt, area, verdict);
}

fn add(rt: &HostRuntime, area: &mut [u8], name: &[u8], value: &[u8]) {
    let verdict = builder::add(area, name, value);
    say_call(rt, area, b"  add ", name, verdict);
}

fn update(rt: &HostRuntime, area: &mut [u8], name: &[u8], value: &[u8]) {
    let verdict = updates::update(area, name, value);
    say_call(rt, area, b"  update ", name, verdict);
}

fn format(rt: &HostRuntime, area: &mut [u8]) {
    let _ = print!(rt; "fresh, bytes {}", area.len());
    let verdict = builder::format(area);
    answer(rt, area, verdict);
}

// Add "a", "x" to a fresh area.
fn one_name(rt: &HostRuntime, area: &mut [u8]) {
    format(rt, area);
    show(rt, area, b"a..b");
    add(rt, area, b"a", b"x");
    word(rt, area, "root children", 16);
    show(rt, area, b"a..b");
    show(rt, area, b"a");
}

// "ab.c" is "12" in a fresh area.
fn first_name(rt: &HostRuntime, area: &mut [u8]) {
    format(rt, area);
    add(rt, area, b"ab.c", b"12");
    word(rt, area, "root children", 16);
    word(rt, area, "children of 112", 128);
    word(rt, area, "prop of 136", 140);
    word(rt, area, "serial of 160", 160);
}

// Then "b" is "q", and stays so when it is added again.
fn second_name(rt: &HostRuntime, area: &mut [u8]) {
    add(rt, area, b"b", b"q");
    word(rt, area, "left of 112", 120);
    word(rt, area, "prop of 264", 268);
    show(rt, area, b"ab.c");
    show(rt, area, b"b");
    show(rt, area, b"ab");
    add(rt, area, b"b", b"again");
    show(rt, area, b"b");
}

// An update.
fn updated(rt: &HostRuntime, area: &mut [u8]) {
    update(rt, area, b"ab.c", b"345");
    word(rt, area, "serial of 160", 160);
    show(rt, area, b"ab.c");
    update(rt, area, b"ab", b"1");
}

// Refused names, and a value with a zero in it.
fn odd_bytes(rt: &HostRuntime, area: &mut [u8]) {
    add(rt, area, b"a\0b", b"1");
    add(rt, area, b"a..b", b"1");
    add(rt, area, b"z", b"x\0y");
    show(rt, area, b"z");
}

// A value under "a" in a fresh area.
fn one_value(rt: &HostRuntime, area: &mut [u8], value: &[u8]) {
    format(rt, area);
    add(rt, area, b"a", value);
    word(rt, area, "prop of 112", 116);
    word(rt, area, "serial of 136", 136);
    word(rt, area, "relative offset of 136", 196);
    show(rt, area, b"a");
}

// It is updated by name, and raw.
fn update_both(rt: &HostRuntime, area: &mut [u8]) {
    update(rt, area, b"a", b"1");
    print(rt, b"  raw update at 136");
    let verdict = updates::backup_and_apply_write(area, 136, b"old", b"new");
    answer(rt, area, verdict);
    show(rt, area, b"a");
}

fn main(rt: HostRuntime) {
    let mut large = [7u8; 4096];
    show(&rt, &large, b"a");
    first_name(&rt, &mut large);
    second_name(&rt, &mut large);
    updated(&rt, &mut large);
    odd_bytes(&rt, &mut large);
    one_name(&rt, &mut [7; 364]);
    one_name(&rt, &mut [7; 363]);
    one_name(&rt, &mut [7; 263]);
    one_name(&rt, &mut [7; 239]);
    let mut area = [7u8; 512];
    for size in [Entry::VALUE_MAX - 1, Entry::VALUE_MAX] {
        let value = [120u8; Entry::VALUE_MAX];
        one_value(&rt, &mut area, &value[..size]);
        update_both(&rt, &mut area);
    }
}
