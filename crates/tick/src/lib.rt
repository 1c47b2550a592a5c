// One tick over all rows of a state's words: release, choose, work and settle. The words are those that C lends, so
// that what stands in them (`Laid`, `Held`) and the patterns that go with them (`Fetched`) are named in each contract:
// a struct round the lent words would take a clause on them in each of its methods too.
#![tactic(auto, using(crate::proofs::Usual::usual))]

ghost use Rattle.std.specs.Prelude.{◌≡◌, ◌+◌, ◌≤◌, ◌<◌, eqb, length, get_or, Some, IfSome};
ghost use Rattle.std.specs.Option.{is_none, unwrap_or};
ghost use Rattle.law.specs.Table.{word_of};
ghost use Rattle.law.specs.Tick.{no_row, core_at, release_row, advance_row, choose as choose_law, full_length, begin, finish as finish_law, tick as tick_law, run as run_law, clock_end};
ghost use Rattle.law.specs.State.{state_of, laid, with_row};
ghost use Rattle.rows.specs.Said.{Timed, Laid, Held, Fetched, advanced_state, counted_tick};

pub mod patterns;

use rows::steps::worked;
use rows::{KIND, LEFT, WAIT, WORK, put_going, put_row, put_wait, row_at, word};

// The number of rows, the first word of a state.
pub fn rows_of(words: &[u64]) -> usize
    requires { Laid words.now }
    ensures { result ≡ length (state_of words.now).rows }
{
    words[0] as usize
}

// Step 1 for row i whose wait is 0: its next job is released with the work given.
#[tactic(auto, using(rows::proofs::Words::in_place))]
pub fn release_row(words: &mut [u64], i: usize, pattern: u64, work: u64)
    requires { (Laid words.old) × (i < length (state_of words.old).rows) × (Timed 0 (get_or (state_of words.old).rows i no_row)) × ((core_at (state_of words.old).rows i).wait ≡ 0) × (pattern ≡ word_of (core_at (state_of words.old).rows i).task) }
    ensures { words.new ≡ laid (with_row (state_of words.old) i (release_row work (get_or (state_of words.old).rows i no_row))) }
{
    let mut r = row_at(words, i);
    r.release(pattern, work);
    put_row(words, i, r);
}

// Step 1 for row i: it releases where its wait is 0, with C work, word 1 of a row.
fn release_one(words: &mut [u64], i: usize, pattern: u64)
    requires { (Laid words.old) × (i < length (state_of words.old).rows) × (Timed 0 (get_or (state_of words.old).rows i no_row)) × (pattern ≡ word_of (core_at (state_of words.old).rows i).task) }
    ensures { words.new ≡ laid (with_row (state_of words.old) i (release_row (core_at (state_of words.old).rows i).task.c (get_or (state_of words.old).rows i no_row))) }
{
    if word(words, i, WAIT) != 0 {
        return;
    }
    let work = word(words, i, 1);
    release_row(words, i, pattern, work);
}

// Steps 3 and 4 for row i, the whole row. Inlined, as `finish` is: a call for each job that settles, and for each tick,
// is slower.
#[tactic(auto, using(rows::proofs::Words::in_place))]
#[inline(always)]
fn settle_one(words: &mut [u64], i: usize, chosen: bool)
    requires { (Laid words.old) × (i < length (state_of words.old).rows) × (Timed 1 (get_or (state_of words.old).rows i no_row)) }
    ensures { words.new ≡ laid (with_row (state_of words.old) i (advance_row chosen (get_or (state_of words.old).rows i no_row))) }
{
    let mut r = row_at(words, i);
    r.advance(chosen);
    put_row(words, i, r);
}

// Steps 3 and 4 for row i. Most rows settle nothing in most ticks: these change at most three words.
fn advance_one(words: &mut [u64], i: usize, chosen: bool)
    requires { (Laid words.old) × (i < length (state_of words.old).rows) × (Timed 1 (get_or (state_of words.old).rows i no_row)) }
    ensures { words.new ≡ laid (with_row (state_of words.old) i (advance_row chosen (get_or (state_of words.old).rows i no_row))) }
{
    let wait = word(words, i, WAIT) - 1;
    let work = word(words, i, WORK);
    if work == 0 {
        put_wait(words, i, wait);
        return;
    }
    let rest = worked(work, chosen);
    let left = word(words, i, LEFT);
    if rest == 0 || left == 1 {
        settle_one(words, i, chosen);
        return;
    }
    put_going(words, i, wait, rest, left - 1);
}

// Whether a live job of that kind is mandatory.
fn is_mandatory(kind: u64) -> bool
    ensures { result ≡ eqb kind 1 }
{
    kind == 1
}

// Step 2: the mandatory live job of the highest row; if there is none, the optional one of the highest row; if none,
// the tick is idle.
fn choose(words: &[u64]) -> Option<usize>
    requires { Laid words.now }
    ensures row { unwrap_or result (length (state_of words.now).rows) ≡ choose_law (state_of words.now).rows }
    ensures inside { IfSome result (λ i. i < length (state_of words.now).rows) }
{
    let mut optional = None;
    for i in 0..rows_of(words) {
        if word(words, i, WORK) > 0 {
            if is_mandatory(word(words, i, KIND)) {
                return Some(i);
            }
            optional = optional.or(Some(i));
        }
    }
    optional
}

// Step 1 for every row.
fn release_all(words: &mut [u64], patterns: &[u64])
    requires { (Held 0 words.old) × ((state_of words.old).time < clock_end) × (Fetched (state_of words.old).rows patterns.now) }
    ensures { words.new ≡ laid (begin (full_length (state_of words.old).rows) (state_of words.old)) }
{
    for i in 0..rows_of(words) {
        release_one(words, i, patterns[i]);
    }
}

// Steps 3 and 4 for every row, with the row that was chosen, if any.
fn advance_all(words: &mut [u64], chosen: Option<usize>)
    requires { Held 1 words.old }
    ensures { words.new ≡ laid (advanced_state (unwrap_or chosen (length (state_of words.old).rows)) (state_of words.old)) }
{
    for i in 0..rows_of(words) {
        advance_one(words, i, chosen == Some(i));
    }
}

// Time goes on by one, and so does the idle count of an idle tick: words 1 and 2.
fn count_tick(words: &mut [u64], idle: bool)
    requires { (Laid words.old) × ((state_of words.old).time < clock_end) × ((state_of words.old).idle ≤ (state_of words.old).time) }
    ensures { words.new ≡ laid (counted_tick idle (state_of words.old)) }
{
    words[1] = words[1] + 1;
    words[2] = words[2] + u64::from(idle);
}

// Steps 2 to 4, once the rows have released: the choice, the work and the settling.
#[inline(always)]
pub fn finish(words: &mut [u64])
    requires { Held 1 words.old }
    ensures { words.new ≡ laid (finish_law (state_of words.old)) }
{
    let chosen = choose(words);
    advance_all(words, chosen);
    count_tick(words, chosen.is_none());
}

// One tick of a run: the releases, each with C work, and the rest.
fn tick(words: &mut [u64], patterns: &[u64])
    requires { (Held 0 words.old) × ((state_of words.old).time < clock_end) × (Fetched (state_of words.old).rows patterns.now) }
    ensures { words.new ≡ laid (tick_law (state_of words.old)) }
{
    release_all(words, patterns);
    finish(words);
}

// n ticks, one after the other.
pub fn ticks(words: &mut [u64], patterns: &[u64], n: u64)
    requires { (Held 0 words.old) × ((state_of words.old).time + n ≤ clock_end) × (Fetched (state_of words.old).rows patterns.now) }
    ensures { words.new ≡ laid (run_law n (state_of words.old)) }
{
    for _done in 0..n {
        tick(words, patterns);
    }
}
