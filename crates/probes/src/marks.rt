// Marks in scratch: words free or taken, and numbers kept in three marks each.
ghost use Rattle.std.specs.Prelude.{◌≡◌, cond, ◌+◌, ◌≤◌, ◌<◌, length, is_ok};
ghost use Rattle.walk.specs.Marks.{all, is_zero, can_take, fill, write, digit, read};
ghost use Rattle.probes.specs.Limits.{word_limit};
ghost use Rattle.layout.specs.declared.refusal.Refusal.{Refusal};

use layout::Refusal;

// Whether k words are free, from the n-th on.
fn free(marks: &[u8], n: usize, k: usize) -> bool
    requires { n + k ≤ length marks.now }
    ensures { result ≡ all (is_zero marks.now) n k }
{
    marks[n..n + k].iter().all(|mark| *mark == 0)
}

// The walk found damage.
#[derive(Clone, Copy)]
pub struct Damaged;

impl From<Damaged> for Refusal {
    ghost from_gives = { λ _ why. why ≡ Refusal.Damaged };

    fn from(_damaged: Damaged) -> Refusal {
        Refusal::Damaged
    }
}

// Takes k words from the n-th on, if all of them are there and free.
#[tactic(auto, unfolding(walk::specs::Marks::can_take, walk::specs::Marks::fill))]
pub fn take(marks: &mut [u8], n: usize, k: usize) -> Result<(), Damaged>
    requires { (n < word_limit) × (k < word_limit) }
    ensures says { is_ok result ≡ can_take marks.old n k }
    ensures leaves { marks.new ≡ cond (is_ok result) (fill marks.old n k) marks.old }
{
    if marks.len() < n + k || !free(marks, n, k) {
        return Err(Damaged);
    }
    words::fill(marks, n, k, 1);
    Ok(())
}

// Keeps a number in three marks, none of which is zero.
pub fn write_number(marks: &mut [u8], n: usize, x: usize)
    requires { n + 3 ≤ length marks.old }
    ensures { marks.new ≡ write marks.old n x }
{
    marks[n] = (x % 255 + 1) as u8;
    marks[n + 1] = (x / 255 % 255 + 1) as u8;
    marks[n + 2] = (x / 255 / 255 % 255 + 1) as u8;
}

fn digit(marks: &[u8], n: usize) -> usize
    ensures { (result ≡ digit marks.now n) × (result < 255) }
{
    words::byte_or_zero(marks, n).saturating_sub(1) as usize
}

// The number that three marks keep.
pub fn read_number(marks: &[u8], n: usize) -> usize
    requires { n < word_limit }
    ensures { (result ≡ read marks.now n) × (result < 0x1000000) }
{
    digit(marks, n) + 255 * (digit(marks, n + 1) + 255 * digit(marks, n + 2))
}
