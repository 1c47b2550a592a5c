// The pattern words of a state's rows, made once for a run: from the book, or of low bits.
ghost use Rattle.std.specs.Prelude.{◌≡◌, ◌<◌, length};
ghost use Rattle.law.specs.Table.{word_of};
ghost use Rattle.law.specs.Tick.{core_at};
ghost use Rattle.law.specs.State.{state_of};
ghost use Rattle.rows.specs.Said.{Held, Fetched};

use crate::rows_of;
use book::{Pair, low_bits};
use rows::task_of;

// The p of a deeply-red pattern.
const RED: u64 = 1;

// The word of a row's own pattern: that of an even one stands in the book; a deeply-red one has its first m bits set.
fn pattern_of(words: &[u64], i: usize) -> u64
    requires { (Held 0 words.now) × (i < length (state_of words.now).rows) }
    ensures { result ≡ word_of (core_at (state_of words.now).rows i).task }
{
    let task = task_of(words, i);
    if task.p == RED {
        return low_bits(task.m);
    }
    let pair = Pair {
        m: task.m,
        k: task.k,
    };
    pair.word()
}

// The pattern word of each row.
pub fn fetch(words: &[u64]) -> [u64; 32]
    requires { Held 0 words.now }
    ensures { (Fetched (state_of words.now).rows result) × (length result ≡ 32) }
{
    let mut patterns = [0u64; 32];
    for i in 0..rows_of(words) {
        patterns[i] = pattern_of(words, i);
    }
    patterns
}
