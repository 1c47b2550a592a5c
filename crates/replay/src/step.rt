// The first step of a tick with a log: is there a number for every job that is released, and the releases with them.
ghost use Rattle.std.specs.Prelude.{◌≡◌, ◌+◌, ◌≤◌, ◌<◌, leb, length, get_or};
ghost use Rattle.law.specs.Sums.{bit, pick};
ghost use Rattle.law.specs.Table.{word_of};
ghost use Rattle.law.specs.Tick.{no_row, core_at, due, release_row, clock_end};
ghost use Rattle.law.specs.State.{state_of, laid, with_row};
ghost use Rattle.law.specs.Replay.{releases, place_of, used_then, unfit, bad_row, is_bad};
ghost use Rattle.rows.specs.Said.{Timed, Laid, Held, Fetched};
ghost use Rattle.refusal.specs.Shown.{answered};
ghost use Rattle.replay.specs.Shown.{under, stepped, Begun};

use refusal::{Refusal, is_within};
use rows::{WAIT, word};
use tick::{release_row, rows_of};

// How many rows release a job in the next tick: those whose wait is 0.
fn due_rows(words: &[u64]) -> u64
    requires { Laid words.now }
    ensures { result ≡ releases (state_of words.now).rows (length (state_of words.now).rows) }
{
    let mut due = 0;
    for i in 0..rows_of(words) {
        due += u64::from(word(words, i, WAIT) == 0);
    }
    due
}

// Whether so many numbers are enough for the next tick. As many as there are rows always are: then none is counted.
pub(crate) fn enough(words: &[u64], left: usize) -> bool
    requires { Laid words.now }
    ensures { result ≡ leb (releases (state_of words.now).rows (length (state_of words.now).rows)) left }
{
    rows_of(words) <= left || due_rows(words) <= left as u64
}

// Step 1 for row i with the number at the place `next`, where its wait is 0: the place of the number after those used.
// A number out of range is not taken, and refused with its place.
fn release_next(
    words: &mut [u64],
    i: usize,
    pattern: u64,
    log: &[u32],
    next: usize,
) -> Result<usize, Refusal>
    requires { (Laid words.old) × (i < length (state_of words.old).rows) × (Timed 0 (get_or (state_of words.old).rows i no_row)) × (pattern ≡ word_of (core_at (state_of words.old).rows i).task) × (next + bit (due (core_at (state_of words.old).rows i)) ≤ length log.now) }
    ensures next { answered result ≡ stepped (unfit log.now next (core_at (state_of words.old).rows i)) next (next + bit (due (core_at (state_of words.old).rows i))) }
    ensures words { words.new ≡ pick (unfit log.now next (core_at (state_of words.old).rows i)) words.old (laid (with_row (state_of words.old) i (release_row (get_or log.now next 0) (get_or (state_of words.old).rows i no_row)))) }
{
    if word(words, i, WAIT) != 0 {
        return Ok(next);
    }
    let work = u64::from(log[next]);
    if !is_within(1, word(words, i, 1), work) {
        return Err(Refusal::Log(next as u64));
    }
    release_row(words, i, pattern, work);
    Ok(next + 1)
}

// Step 1 for every row, with the numbers of the log from the place `used` on: the place after them; up to the first
// that is out of range.
pub(crate) fn release_logged(
    words: &mut [u64],
    patterns: &[u64],
    log: &[u32],
    used: usize,
) -> Result<usize, Refusal>
    requires { (Held 0 words.old) × ((state_of words.old).time < clock_end) × (Fetched (state_of words.old).rows patterns.now) × (used_then (under (state_of words.old) used) ≤ length log.now) }
    ensures next { answered result ≡ stepped (is_bad log.now (under (state_of words.old) used)) (place_of (under (state_of words.old) used) (bad_row log.now (under (state_of words.old) used))) (used_then (under (state_of words.old) used)) }
    ensures words { Begun (is_bad log.now (under (state_of words.old) used)) log.now (under (state_of words.old) used) words.new }
{
    let mut next = used;
    for i in 0..rows_of(words) {
        next = release_next(words, i, patterns[i], log, next)?;
    }
    Ok(next)
}
