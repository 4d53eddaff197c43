// The programs dump and lookup. They move bytes: a file's and an input's into buffers, the texts of the crates answers and dumping to standard output.
#![tactic(auto)]

ghost use Rattle.std.specs.Prelude.{◌≡◌, List, [], ℕ, ◌≤◌, ◌<◌, length, take};
ghost use Rattle.io.specs.Counts.{IsPrefixLen};
ghost use Rattle.sound.specs.Sound.{Without};
ghost use Rattle.audit.specs.Check.{Judged};
ghost use Rattle.texts.specs.Text.{line_feed};
ghost use Rattle.answers.specs.Answers.{name_max, text_max};
ghost use Rattle.answers.specs.Lines.{lookup_text};
ghost use Rattle.printed.specs.Printed.{file_dump};
ghost use Rattle.programs.specs.Owed.{Ready, Owes, OwesIn};
ghost use Rattle.programs.specs.Reading.{readable_size};

use answers::{FILE_MAX, NAME_MAX};
use layout::{Backup, Entry, Header, Node};
use std::fs;
use std::fs::File;
use std::io::Read;
use streams::{print, read_full};
use texts::Page;

// The programs' file, in the current folder.
const AREA: [u8; 8] = *b"area.bin";

// Space for a file, and for a line of the input: one byte more than may be, so that more is seen.
const FILE_SPACE: usize = FILE_MAX + 1;

const LINE_SPACE: usize = NAME_MAX + 1;

// No answer and no dump is longer.
const TEXT_MAX: usize = 4 * FILE_MAX + 64;

// The input is read in pieces of so many bytes.
const PIECE_SPACE: usize = 65536;

// The lookup gathers answers, and prints them when the next may have no room.
const ANSWERS_SPACE: usize = 2 * TEXT_MAX;

// What listing needs for any file: scratch, a byte for four of the file; and a place for each entry. Behind header, root and backup slot stand entries, each with a node: both have a
// name, which takes 4 bytes at least.
const SCRATCH_SPACE: usize = FILE_MAX / 4;

const ENTRIES_MAX: usize = (FILE_MAX - Header::SIZE - Backup::END)
    / (Node::SIZE + 4 + Entry::SIZE + 4);

// How many bytes of a file count, of which so many were read and a further read answered so.
fn readable_size(size: usize, behind: isize) -> usize
    ensures { result ≡ readable_size size behind }
{
    if behind == 0 { size } else { 0 }
}

// What a read of one byte more answers: how many bytes, or -1 where it fails, as C's `read` does. The rule that `readable_size` states is one about this number.
fn read_behind(file: &mut File) -> isize {
    let mut byte = [0u8; 1];
    match file.read(&mut byte) {
        Ok(n) => n as isize,
        Err(_) => -1,
    }
}

// Reads an open file into the start of a buffer, and answers how many bytes. Where they do not fill the buffer, a further read has to find the file's end.
fn read_whole(file: &mut File, buf: &mut [u8]) -> usize
    ensures { IsPrefixLen result buf.new }
{
    let size = read_full(file, buf);
    if size == buf.len() {
        size
    } else {
        readable_size(size, read_behind(file))
    }
}

// Reads a file into the start of a buffer, and answers how many bytes. A file that cannot be read to its end counts as empty, and so does one whose name is no text; of a longer one there
// are as many bytes as the buffer has.
fn load(rt: &HostRuntime, file: &[u8], buf: &mut [u8]) -> usize
    ensures { IsPrefixLen result buf.new }
{
    let Ok(path) = std::str::from_utf8(file) else {
        return 0;
    };
    match fs::open(rt, path) {
        Ok(mut opened) => read_whole(&mut opened, buf),
        Err(_) => 0,
    }
}

// ---- dump

// Puts the dump of a file at the start of the output, all of it. The next place.
// That the output is large enough is asked four times: a page's own invariant would be asked of every page.
fn dump_text(area: &[u8], out: &mut [u8]) -> usize
    requires { text_max ≤ length out.old }
    ensures within { result ≤ length out.new }
    ensures whole { (judged : Judged area.now) → take result out.new ≡ file_dump area.now judged }
{
    let mut scratch = [0u8; SCRATCH_SPACE];
    let mut list = [0u32; ENTRIES_MAX];
    dumping::dump(area, &mut scratch, &mut list, out)
}

fn print_dump(rt: &HostRuntime, area: &[u8]) {
    let mut out = [0u8; TEXT_MAX];
    let told = dump_text(area, &mut out);
    print(rt, &out[..told]);
}

// Prints the dump of a file.
pub fn dump_file(rt: &HostRuntime, file: &[u8]) {
    let mut space = [0u8; FILE_SPACE];
    let size = load(rt, file, &mut space);
    print_dump(rt, &space[..size]);
}

// The program dump: area.bin, of the current folder.
pub fn dump(rt: &HostRuntime) {
    dump_file(rt, &AREA);
}

// ---- lookup

// Answers the names of a piece of input, from a place on, and stops where the piece ends or the page may have no room for the next answer. Input that is left is taken, in part at least.
// Line and page go side by side: they are two buffers with two bounds, and a struct of both would be taken apart at each call.
// The answers stand at the page's start. None is lost and none is added: what was owed at the call is these answers, and then what is owed for the rest. A name that has
// not ended stays in the line. Where the input goes on.
fn answer_some(
    area: &[u8],
    input: &[u8],
    from: usize,
    line: &mut Page<'_>,
    page: &mut Page<'_>,
) -> usize
    requires { (from ≤ length input.now) × Ready line.old.out.now line.old.at page.old.out.now }
    ensures same_line { line.new.out.ghost_name ≡ line.old.out.ghost_name }
    ensures same_buffer { page.new.out.ghost_name ≡ page.old.out.ghost_name }
    ensures within { (result ≤ length input.now) × (page.new.at ≤ length page.new.out.now) }
    ensures goes { from < length input.now → from < result }
    ensures ready { Ready line.new.out.now line.new.at page.new.out.now }
    ensures serves { OwesIn area.now input.now (take line.old.at line.old.out.now) from (take page.new.at page.new.out.now) (take line.new.at line.new.out.now) result }
{
    let mut next = from;
    page.at = 0;
    // Where the input goes on is the turn's answer, so this is a `while`.
    while next < input.len() && TEXT_MAX <= page.out.len() - page.at {
        next = answers::turn(area, input, next, line, page);
    }
    next
}

// Answers all names of a piece of input, and prints the answers. A name that has not ended stays in the line.
// What was owed at the call is a text, and then what is owed for what the line has and for all that comes later.
fn serve(rt: &HostRuntime, area: &[u8], input: &[u8], line: &mut Page<'_>, page: &mut Page<'_>)
    requires { Ready line.old.out.now line.old.at page.old.out.now }
    ensures same_line { line.new.out.ghost_name ≡ line.old.out.ghost_name }
    ensures same_buffer { page.new.out.ghost_name ≡ page.old.out.ghost_name }
    ensures ready { Ready line.new.out.now line.new.at page.new.out.now }
    ensures holds { (text : List ℕ) × Owes area.now (take line.old.at line.old.out.now) input.now text (take line.new.at line.new.out.now) [] }
{
    let mut next = 0;
    // Where the input goes on is the call's answer, here too.
    while next < input.len() {
        next = answer_some(area, input, next, line, page);
        print(rt, page.text());
    }
}

// Serves all of the input, piece by piece as it is read. Where a read fails the input ends, and a line that has not ended is no name.
// A proved loop has to end, and nothing says that the input does: there are 2^64 - 1 reads at most.
fn serve_all<R: Read>(rt: &HostRuntime, area: &[u8], input: &mut R, line: &mut [u8], out: &mut [u8])
    requires { (name_max < length line.old) × (text_max ≤ length out.old) }
{
    let mut space = [0u8; PIECE_SPACE];
    let mut line = Page { out: line, at: 0 };
    let mut page = Page { out, at: 0 };
    for _ in 0..u64::MAX {
        match input.read(&mut space) {
            Ok(0) => break,
            Ok(size) => serve(rt, area, &space[..size], &mut line, &mut page),
            Err(_) => return,
        }
    }
    finish(rt, area, line.text(), &mut page);
}

// Puts what is owed for a last line without line feed at the start of the page.
fn last_text(area: &[u8], held: &[u8], page: &mut Page<'_>)
    requires { (text_max ≤ length page.old.out.now) × Without line_feed held.now }
    ensures same_buffer { page.new.out.ghost_name ≡ page.old.out.ghost_name }
    ensures within { page.new.at ≤ length page.new.out.now }
    ensures whole { take page.new.at page.new.out.now ≡ lookup_text area.now held.now }
{
    page.at = 0;
    answers::finish(area, held, page);
}

fn finish(rt: &HostRuntime, area: &[u8], held: &[u8], page: &mut Page<'_>)
    requires { (text_max ≤ length page.old.out.now) × Without line_feed held.now }
{
    last_text(area, held, page);
    print(rt, page.text());
}

fn print_answers<R: Read>(rt: &HostRuntime, area: &[u8], input: &mut R) {
    let mut line = [0u8; LINE_SPACE];
    let mut out = [0u8; ANSWERS_SPACE];
    serve_all(rt, area, input, &mut line, &mut out);
}

// Prints a file's answer to each name of an input.
// It begins as `dump_file` does, by two lines: a function that takes the rest as a closure would be longer than these.
pub fn lookup_file<R: Read>(rt: &HostRuntime, file: &[u8], input: &mut R) {
    let mut space = [0u8; FILE_SPACE];
    let size = load(rt, file, &mut space);
    print_answers(rt, &space[..size], input);
}

// The program lookup: area.bin, of the current folder, and standard input.
pub fn lookup(rt: &HostRuntime) {
    lookup_file(rt, &AREA, &mut rt.stdin());
}
