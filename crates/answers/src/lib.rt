// What the program lookup prints, as functions on slices: the text of an answer, and of all answers to a piece of input.
#![tactic(auto)]

ghost use Rattle.std.specs.Prelude.{◌≡◌};
ghost use Rattle.layout.specs.Refusals.{number_of};
ghost use Rattle.property_area.specs.Value.{part_answer};
ghost use Rattle.texts.specs.Text.{saying, Says};
ghost use Rattle.answers.specs.Answers.{refused_text, ask_steps, answer_text};
ghost use Rattle.answers.specs.Lines.{turned, turn_steps, end_steps};

use layout::{Refusal, Span};
use texts::Page;
use trie::header_ok;

// The longest area.bin, and the longest name.
pub const FILE_MAX: usize = 65536;

pub const NAME_MAX: usize = 65536;

// Puts a refusal's line on a page.
pub fn say_refused(page: &mut Page<'_>, why: Refusal)
    ensures { Says page.old page.new (refused_text (number_of why)) }
{
    page.say(b"refused ");
    page.say_number(why.number() as usize);
    page.say(b"\n");
}

// What the lookup shows for a name.
#[tactic(auto, unfolding(crate::specs::Answers::ask_steps))]
fn ask(area: &[u8], name: &[u8]) -> Result<Span, Refusal>
    ensures { part_answer result ≡ ask_steps area.now name.now }
{
    if FILE_MAX < area.len() || !header_ok(area) {
        return Err(Refusal::BadHeader);
    }
    if NAME_MAX < name.len() {
        return Err(Refusal::TooLong);
    }
    reader::lookup(area, name)
}

// Puts the lookup's line for a name on a page.
#[tactic(auto, unfolding(crate::specs::Answers::answer_text))]
pub fn answer(area: &[u8], name: &[u8], page: &mut Page<'_>)
    ensures { Says page.old page.new (answer_text area.now name.now) }
{
    match ask(area, name) {
        Ok(Span { from, to }) => {
            page.say_escaped(&area[from..to]);
            page.say(b"\n");
        }
        Err(why) => say_refused(page, why),
    }
}

// Takes the input up to its next line feed into the line; a line that has ended is answered, and the next begins empty. Where the input goes on.
#[tactic(auto, unfolding(crate::specs::Lines::turn_steps))]
pub fn turn(
    area: &[u8],
    input: &[u8],
    from: usize,
    line: &mut Page<'_>,
    page: &mut Page<'_>,
) -> usize
    ensures same_line { line.new.out.ghost_name ≡ line.old.out.ghost_name }
    ensures same_buffer { page.new.out.ghost_name ≡ page.old.out.ghost_name }
    ensures turned { turned line.new.at result line.new.out.now (saying page.new.at page.new.out.now) ≡ turn_steps area.now input.now from line.old.out.now line.old.at page.old.out.now page.old.at }
{
    let Some(next) = texts::assemble(input, from, line) else {
        return input.len();
    };
    answer(area, line.text(), page);
    line.at = 0;
    next
}

// At the input's end: a last line without line feed is answered too.
#[tactic(auto, unfolding(crate::specs::Lines::end_steps))]
pub fn finish(area: &[u8], held: &[u8], page: &mut Page<'_>)
    ensures same_buffer { page.new.out.ghost_name ≡ page.old.out.ghost_name }
    ensures said { saying page.new.at page.new.out.now ≡ end_steps area.now held.now page.old.out.now page.old.at }
{
    if !held.is_empty() {
        answer(area, held, page);
    }
}
