// The sound area, and the ways to break it. A way is a line: a word of four letters, two numbers, and its name.
//
//   used 0 N       the used mark is N            word O N       the word at offset O of the data is N
//   byte O N       the byte at offset O is N     slot O N       the 92 bytes from offset O are N
//   none 0 0       nothing is changed            #              the line is no way
use crate::listing::list;
use layout::{Entry, Header};
use streams::print;

fn add(rt: &HostRuntime, area: &mut [u8], name: &[u8], value: &[u8]) {
    if builder::add(area, name, value).is_err() {
        print(rt, b"an add was refused\n");
    }
}

// The sound area.
pub fn build(rt: &HostRuntime, area: &mut [u8]) {
    if builder::format(area).is_err() {
        print(rt, b"format was refused\n");
    }
    let value = [120u8; Entry::VALUE_MAX];
    add(rt, area, b"ab.c", b"12");
    add(rt, area, b"b", b"q");
    add(rt, area, b"z", &value);
    add(rt, area, b"ab", b"w");
    add(rt, area, b"ab.d", b"5");
}

// A number with one more digit, as long as it is a word.
fn with_digit(value: usize, digit: u8) -> usize {
    if value < 0x1_0000_0000 {
        value * 10 + usize::from(digit % 16)
    } else {
        0
    }
}

// The number that some digits are. A byte that is no digit counts as one: `parse` would refuse it.
fn number_of(digits: &[u8]) -> usize {
    digits
        .iter()
        .fold(0, |value, digit| with_digit(value, *digit))
}

// What stands before the first space of a text, and what behind it.
fn at_space(text: &[u8]) -> (&[u8], &[u8]) {
    match text.iter().position(|byte| *byte == b' ') {
        Some(end) => (&text[..end], &text[end + 1..]),
        None => (text, b""),
    }
}

fn set_word(area: &mut [u8], place: usize, word: usize) {
    if place < 1024 && word < 0x1_0000_0000 && place + 4 <= area.len() {
        words::put_word(area, place, word as u32);
    }
}

fn set_bytes(area: &mut [u8], place: usize, size: usize, byte: u8) {
    if size <= area.len() && place <= area.len() - size {
        area[place..place + size].fill(byte);
    }
}

// Changes the area as a way's first letter says.
fn change(area: &mut [u8], letter: u8, offset: usize, number: usize) {
    if 896 < offset {
        return;
    }
    // The letters are the file's; each takes other arguments, so a match is plainer than closures.
    match letter {
        b'u' => set_word(area, Header::USED, number),
        b'w' => set_word(area, Header::SIZE + offset, number),
        b'b' => set_bytes(area, Header::SIZE + offset, 1, (number % 256) as u8),
        b's' => set_bytes(
            area,
            Header::SIZE + offset,
            Entry::VALUE_MAX,
            (number % 256) as u8,
        ),
        _ => {}
    }
}

// Another magic than the header's.
pub fn another_magic(rt: &HostRuntime, area: &mut [u8]) {
    set_bytes(area, Header::MAGIC, 1, b'Q');
    print(rt, b"another magic");
    list(rt, area);
}

// Breaks the sound area in one way, and lists it.
fn break_so(rt: &HostRuntime, area: &mut [u8], way: &[u8]) {
    if way.len() < 5 || way[0] == b'#' {
        return;
    }
    let (offset, rest) = at_space(&way[5..]);
    let (number, name) = at_space(rest);
    build(rt, area);
    change(area, way[0], number_of(offset), number_of(number));
    print(rt, name);
    list(rt, area);
}

// Breaks the sound area in each way of a text of lines.
pub fn break_by(rt: &HostRuntime, area: &mut [u8], ways: &[u8]) {
    for way in ways.split(|byte| *byte == b'\n') {
        break_so(rt, area, way);
    }
}
