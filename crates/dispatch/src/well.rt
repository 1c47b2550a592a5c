// Whether words that a caller offers are a well-formed state: the tests of document 01 and of document 02, 2/14 and
// 3/14, and no other.
ghost use Rattle.std.specs.Prelude.{◌≡◌, ◌≤◌, ◌<◌, ◌+◌, ◌*◌, ◌^◌, eqb, leb, ltb};
ghost use Rattle.law.specs.Sums.{both, every};
ghost use Rattle.law.specs.Pattern.{InRange};
ghost use Rattle.law.specs.Table.{repeated, faulty};
ghost use Rattle.law.specs.Tick.{clock_end};
ghost use Rattle.law.specs.State.{job_well, core_well, tally_well, row_well, tasks_of, state_of, saved_well};
ghost use Rattle.rows.specs.Said.{row_said, Sized};

use refusal::is_within;
use rows::{HEAD, Row, STATE_WORDS, STRIDE, row_at, task_of, word};
use table::row_fault;
use tally::{Tally, marks_in};

// The window's bits from k up are clear. The shift goes in two steps, since k may be 64.
#[tactic(auto, using(crate::proofs::Tests::window_test))]
fn window_fits(window: u64, k: u64) -> bool
    requires { (1 ≤ k) × (k ≤ 64) }
    ensures { result ≡ ltb window (2 ^ k) }
{
    window >> (k - 1) >> 1 == 0
}

// A live job has 1 to wait ticks left and kind 0 or 1; a row without one has neither.
#[tactic(auto, unfolding(law::specs::State::job_well))]
fn job_well(r: Row) -> bool
    ensures { result ≡ job_well (row_said r).core }
{
    if r.work > 0 {
        is_within(1, r.wait, r.left) && r.kind <= 1
    } else {
        r.left == 0 && r.kind == 0
    }
}

// Wait, place and work are in their ranges, and the job is well.
#[tactic(auto, unfolding(law::specs::State::core_well))]
fn core_well(r: Row) -> bool
    ensures { result ≡ core_well (row_said r).core }
{
    r.wait < r.task.t && r.place < r.task.k && r.work <= r.task.c && job_well(r)
}

// The released count is at most the time, and no settled count is above it: then their sum does not pass 64 bits.
fn counts_within(y: Tally, time: u64) -> bool
    ensures { result ≡ both (leb y.released time) (both (leb y.mm y.released) (both (leb y.mx y.released) (both (leb y.om y.released) (leb y.ox y.released)))) }
{
    y.released <= time
        && y.mm <= y.released
        && y.mx <= y.released
        && y.om <= y.released
        && y.ox <= y.released
}

// The counts agree, the window fits, and its met marks are as many as is said.
#[tactic(auto, unfolding(law::specs::State::tally_well))]
fn tally_well(r: Row, time: u64) -> bool
    requires { (time ≤ clock_end) × (InRange r.task.m r.task.k) }
    ensures { result ≡ tally_well time (row_said r).core (row_said r).tally }
{
    let y = r.tally;
    if !counts_within(y, time) {
        return false;
    }
    let settled = y.mm + y.mx + y.om + y.ox;
    y.released == settled + u64::from(r.work > 0)
        && y.broken <= settled
        && window_fits(y.window, r.task.k)
        && y.held == marks_in(y.window, r.task.k)
}

// A whole row.
#[tactic(auto, unfolding(law::specs::State::row_well))]
fn row_well(r: Row, time: u64) -> bool
    requires { (time ≤ clock_end) × (InRange r.task.m r.task.k) }
    ensures { result ≡ row_well time (row_said r) }
{
    tally_well(r, time) && core_well(r)
}

// Whether a row's id, word 0 of a row, stands in an earlier row. The table's own looks at a lent table of 32-bit words:
// one function for both would take a closure with its clauses for these five lines.
fn is_repeated(words: &[u64], rows: usize, i: usize) -> bool
    requires { (Sized words.now rows) × (i < rows) }
    ensures { result ≡ repeated (tasks_of (state_of words.now).rows) i }
{
    let id = word(words, i, 0);
    for j in 0..i {
        if word(words, j, 0) == id {
            return true;
        }
    }
    false
}

// No row of the table has a fault. The words and their number of rows go together in three functions here, none of
// which another module calls: a struct of the two would be made for them alone.
fn table_clean(words: &[u64], rows: usize) -> bool
    requires { Sized words.now rows }
    ensures { result ≡ eqb (faulty (tasks_of (state_of words.now).rows)) rows }
{
    for i in 0..rows {
        if row_fault(task_of(words, i), is_repeated(words, rows, i)).is_some() {
            return false;
        }
    }
    true
}

// Every row is well.
fn rows_well(words: &[u64], rows: usize, time: u64) -> bool
    requires { (Sized words.now rows) × (faulty (tasks_of (state_of words.now).rows) ≡ rows) × (time ≤ clock_end) }
    ensures { result ≡ every (row_well time) (state_of words.now).rows }
{
    for i in 0..rows {
        if !row_well(row_at(words, i), time) {
            return false;
        }
    }
    true
}

// Every word is 0. They are put together and looked at once: without a way out of the loop, several words go in one
// step.
fn is_clear(words: &[u64]) -> bool
    ensures { result ≡ every (λ w. eqb w 0) words.now }
{
    let mut any = 0;
    for word in words {
        any |= *word;
    }
    any == 0
}

// Whether words are a well-formed state: their number, the table, the clock, each row, and nothing after the last row.
#[tactic(auto, using(crate::proofs::Saved::ways_out))]
pub fn is_well(words: &[u64]) -> bool
    ensures { result ≡ saved_well words.now }
{
    if words.len() != STATE_WORDS || !is_within(1, 32, words[0]) {
        return false;
    }
    let rows = words[0] as usize;
    let time = words[1];
    if !table_clean(words, rows) || 4294967295 < time {
        return false;
    }
    words[2] <= time && rows_well(words, rows, time) && is_clear(&words[HEAD + rows * STRIDE..])
}
