// Old task files carried over, and back: a text of six lines a row into one of seven, with `p=0`, and back where every
// p is 0.
#![tactic(auto)]

ghost use Rattle.std.specs.Prelude.{◌≡◌, ◌+◌, ◌*◌, ◌≤◌, ◌<◌, ltb, length, get_or, take};
ghost use Rattle.law.specs.Sums.{pick};
ghost use Rattle.law.specs.Table.{table_of};
ghost use Rattle.law.specs.Carry.{relaid, sayable, new_words, new_checked, old_words, old_checked, to_new_answer, to_new_room, to_old_answer, to_old_room};
ghost use Rattle.refusal.specs.Shown.{answered};
ghost use Rattle.text.specs.Said.{stood};

use refusal::Refusal;
use table::{WIDTH, check, task_at};
use text::read::{read, rows_of};
use text::write::write_rows;

// The words of a row of an old text.
const OLD_WIDTH: usize = 6;

// The word at a place of a row, 0 where the row has none.
fn word_in(words: &[u32], row: usize, width: usize, place: usize) -> u32
    requires { row * width + width ≤ length words.now }
    ensures { result ≡ pick (ltb place width) (get_or words.now (row * width + place) 0) 0 }
{
    if place < width {
        words[row * width + place]
    } else {
        0
    }
}

// The rows of a run, laid anew with another number of words each: a word that a row has not is 0, a word too many is
// left out.
fn relay(words: &[u32], rows: usize, from: usize, to: usize, out: &mut [u32])
    requires { (length words.now ≡ rows * from) × (rows * to ≤ length out.old) × (0 < from) × (0 < to) }
    ensures { take (rows * to) out.new ≡ relaid from to words.now }
{
    for (l, word) in out[..rows * to].iter_mut().enumerate() {
        *word = word_in(words, l / to, from, l % to);
    }
}

// Whether the old form can say each row of a table; the first that it cannot say is refused.
fn check_old(words: &[u32]) -> Result<usize, Refusal>
    ensures { answered result ≡ sayable (table_of words.now) }
{
    let rows = words.len() / WIDTH;
    for i in 0..rows {
        if task_at(words, i).p == 1 {
            return Err(Refusal::NotOld(i as u64));
        }
    }
    Ok(rows)
}

// The table that an old text says, seven words a row from the start of `words`: the number of its rows, or why it is
// none.
fn new_rows(text: &[u8], words: &mut [u32]) -> Result<usize, Refusal>
    requires { length words.old ≡ 224 }
    ensures answer { answered result ≡ new_checked text.now }
    ensures words { stood result 7 words.new (new_words text.now) ≡ new_words text.now }
{
    let mut old = [0u32; 224];
    let rows = rows_of(text, &mut old, OLD_WIDTH)?;
    relay(&old[..rows * OLD_WIDTH], rows, OLD_WIDTH, WIDTH, words);
    check(&words[..rows * WIDTH])
}

// An old text as a new one, with `p=0` in every row, at the start of a lent room: the length of the new text. Refused:
// the room is as it was.
pub fn to_new(text: &[u8], room: &mut [u8]) -> Result<usize, Refusal>
    ensures answer { answered result ≡ to_new_answer text.now (length room.old) }
    ensures room { room.new ≡ to_new_room text.now room.old }
{
    let mut words = [0u32; 224];
    let rows = new_rows(text, &mut words)?;
    write_rows(&words[..rows * WIDTH], rows, WIDTH, room)
}

// The words of a new text's rows without p, from the start of `old`, where the old form can say them all: the number of
// rows, or why not. 224 words are room for every table that is read.
fn old_rows(text: &[u8], old: &mut [u32]) -> Result<usize, Refusal>
    requires { length old.old ≡ 224 }
    ensures answer { answered result ≡ old_checked text.now }
    ensures words { stood result 6 old.new (old_words text.now) ≡ old_words text.now }
{
    let mut words = [0u32; 224];
    let rows = read(text, &mut words)?;
    let n = rows * WIDTH;
    check_old(&words[..n])?;
    relay(&words[..n], rows, WIDTH, OLD_WIDTH, old);
    Ok(rows)
}

// A new text whose every p is 0 as an old one, at the start of a lent room: the length of the old text. Refused: the
// room is as it was. It stands beside `to_new`: one function over the two ways of reading would take their clauses for
// three lines.
pub fn to_old(text: &[u8], room: &mut [u8]) -> Result<usize, Refusal>
    ensures answer { answered result ≡ to_old_answer text.now (length room.old) }
    ensures room { room.new ≡ to_old_room text.now room.old }
{
    let mut old = [0u32; 224];
    let rows = old_rows(text, &mut old)?;
    write_rows(&old[..rows * OLD_WIDTH], rows, OLD_WIDTH, room)
}
