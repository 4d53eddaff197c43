// The text of the programs, as functions on slices: escaped bytes, numbers, and a line put together from pieces.
#![tactic(auto)]

ghost use Rattle.std.specs.Prelude.{◌≡◌, ◌%◌, ◌<◌, length, take};
ghost use Rattle.texts.specs.Text.{prints_as_is, digit, hex_digit, escaped_byte, escaped, decimal, saying, Says, feed, fed_answer};

// Whether a byte prints as it is.
fn prints_as_is(b: u8) -> bool
    ensures { result ≡ prints_as_is b }
{
    (0x20..=0x7e).contains(&b) && b != b'\\'
}

// How many bytes a byte takes, escaped.
#[tactic(auto, unfolding(crate::specs::Text::escaped_byte))]
pub fn escaped_size(b: u8) -> usize
    ensures { result ≡ length (escaped_byte b) }
{
    if prints_as_is(b) { 1 } else { 4 }
}

fn hex_digit(d: u8) -> u8
    requires { d < 16 }
    ensures { result ≡ hex_digit d }
{
    if d < 10 { b'0' + d } else { b'a' + (d - 10) }
}

// The last decimal digit of a number.
fn last_digit(n: usize) -> u8
    ensures { result ≡ digit (n % 10) }
{
    b'0' + (n % 10) as u8
}

// A buffer that texts are put into, one behind the other, and the place of the next. What would stand behind the buffer's end is dropped.
#[derive(Drop)]
pub struct Page<'a> {
    pub out: &'a mut [u8],
    pub at: usize,
}

impl Page<'_> {
    // What stands there before the place.
    pub fn text(&self) -> &[u8]
        ensures { result.now ≡ take self.now.at self.now.out.now }
    {
        let end = self.at.min(self.out.len());
        &self.out[..end]
    }

    // Puts a text at the place, and goes on behind it.
    pub fn say(&mut self, text: &[u8])
        ensures { Says self.old self.new text.now }
    {
        let start = self.at.min(self.out.len());
        let kept = text.len().min(self.out.len() - start);
        words::copy(self.out, start, &text[..kept]);
        self.at = start + kept;
    }

    #[tactic(auto, unfolding(crate::specs::Text::escaped_byte))]
    fn say_byte(&mut self, b: u8)
        ensures { Says self.old self.new (escaped_byte b) }
    {
        if !prints_as_is(b) {
            self.say(&[b'\\', b'x', hex_digit(b / 16), hex_digit(b % 16)]);
        } else if self.at < self.out.len() {
            // One byte is one store: most of what is escaped is such bytes, and a copy of one costs a call.
            self.out[self.at] = b;
            self.at += 1;
        } else {
            self.at = self.out.len();
        }
    }

    // The same for a text that is escaped.
    #[tactic(auto, unfolding(crate::specs::Text::escaped, crate::specs::Text::said, words::specs::Words::put))]
    pub fn say_escaped(&mut self, text: &[u8])
        ensures { Says self.old self.new (escaped text.now) }
    {
        self.at = self.at.min(self.out.len());
        for b in text {
            self.say_byte(*b);
        }
    }

    // The same for a number, in decimal.
    // The digits are found from the last one on, and end with the number and not with their buffer: a `for` would need a `break`, and a text for a number of more digits.
    pub fn say_number(&mut self, n: usize)
        ensures { Says self.old self.new (decimal n) }
    {
        let mut digits = [0u8; 20];
        let mut from = 19;
        let mut rest = n;
        digits[from] = last_digit(rest);
        while 10 <= rest {
            rest /= 10;
            from -= 1;
            digits[from] = last_digit(rest);
        }
        self.say(&digits[from..]);
    }
}

// Puts the input from a place up to its next line feed behind what a line has. What does not fit is dropped: the line is then full.
// Where the input goes on behind a line that has ended, or nothing: the input has ended first.
// That the buffer stays the same one is said here and at each call above: a type speaks of one moment, and this of two.
#[tactic(auto, using(crate::proofs::Laws::pieces))]
pub fn assemble(input: &[u8], from: usize, line: &mut Page<'_>) -> Option<usize>
    ensures same_buffer { line.new.out.ghost_name ≡ line.old.out.ghost_name }
    ensures fed { fed_answer input.now (saying line.new.at line.new.out.now) result ≡ feed input.now from line.old.out.now line.old.at }
{
    let start = from.min(input.len());
    let end = words::first(input, b'\n', start, input.len());
    line.say(&input[start..end]);
    let ended = end < input.len();
    if ended { Some(end + 1) } else { None }
}
