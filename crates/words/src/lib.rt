// Bytes in a lent slice: little-endian words, alignment, the scan for a byte, copies and fills, a comparison.
#![tactic(auto)]

ghost use Rattle.std.specs.Prelude.{◌≡◌, ◌+◌, ◌-◌, ◌≤◌, ◌<◌, length, get_or, replicate};
ghost use Rattle.words.specs.Words.{little_at, little_bytes, round_up4, first_in, same_bytes, put};
ghost use Rattle.words.specs.Stores.{run, text_stores};

// The word whose four bytes stand from a place on.
pub fn word(s: &[u8], at: usize) -> u32
    requires { at + 4 ≤ length s.now }
    ensures { result ≡ little_at 4 s.now at }
{
    u32::from_le_bytes([s[at], s[at + 1], s[at + 2], s[at + 3]])
}

// The byte at a place; past the end it is zero.
pub fn byte_or_zero(s: &[u8], i: usize) -> u8
    ensures { result ≡ get_or s.now i 0 }
{
    s.get(i).copied().unwrap_or(0)
}

// The word whose four bytes stand from a place on; bytes past the end are zero. `word` makes no test, and asks that the bytes are there.
pub fn word_or_zero(s: &[u8], at: usize) -> u32
    requires { at < 0x1000000000000 }
    ensures { result ≡ little_at 4 s.now at }
{
    u32::from_le_bytes([
        byte_or_zero(s, at),
        byte_or_zero(s, at + 1),
        byte_or_zero(s, at + 2),
        byte_or_zero(s, at + 3),
    ])
}

// Replaces the four bytes from a place on by those of a word.
pub fn put_word(s: &mut [u8], at: usize, v: u32)
    requires { at + 4 ≤ length s.old }
    ensures { s.new ≡ put s.old at (little_bytes 4 v) }
{
    copy(s, at, &v.to_le_bytes());
}

// Rounds up to a multiple of 4.
pub fn align4(n: usize) -> usize
    requires { n ≤ 0xffff_ffff_ffff_fffc }
    ensures { result ≡ round_up4 n }
{
    n.next_multiple_of(4)
}

// The place of the first byte b from a place up to another, or that other where there is none: the definition of a text's end goes by that place, so it is no Option.
pub fn first(s: &[u8], b: u8, from: usize, to: usize) -> usize
    requires { (from ≤ to) × (to ≤ length s.now) }
    ensures { result ≡ first_in b s.now from (to - from) }
{
    s[from..to]
        .iter()
        .position(|x| *x == b)
        .map_or(to, |i| from + i)
}

// Copies all of src into dst from a place on.
pub fn copy(dst: &mut [u8], at: usize, src: &[u8])
    requires { at + length src.now ≤ length dst.old }
    ensures { dst.new ≡ put dst.old at src.now }
{
    dst[at..at + src.len()].copy_from_slice(src);
}

// Writes a text and its zero from a place on.
pub fn put_text(dst: &mut [u8], at: usize, text: &[u8])
    requires { at + length text.now < length dst.old }
    ensures { dst.new ≡ run dst.old (text_stores at text.now) }
{
    copy(dst, at, text);
    dst[at + text.len()] = 0;
}

// Makes k bytes from a place on the same.
pub fn fill(s: &mut [u8], from: usize, k: usize, b: u8)
    requires { from + k ≤ length s.old }
    ensures { s.new ≡ put s.old from (replicate k b) }
{
    s[from..from + k].fill(b);
}

// Makes every byte zero.
pub fn clear(s: &mut [u8])
    ensures { s.new ≡ replicate (length s.old) 0 }
{
    s.fill(0);
}

// Whether two runs of bytes are the same.
pub fn same(a: &[u8], b: &[u8]) -> bool
    ensures { result ≡ same_bytes a.now b.now }
{
    a == b
}
