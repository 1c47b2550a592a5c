// Where a row stands among the words of a state: the number of rows, the time and the idle count come first, then
// twenty words a row.
#![tactic(auto)]

ghost use Rattle.std.specs.Prelude.{◌≡◌, ◌+◌, ◌*◌, ◌<◌, length, get_or, set};
ghost use Rattle.law.specs.State.{row_at, sets_from, words_of};
ghost use Rattle.table.specs.Said.{task_said};
ghost use Rattle.tally.specs.Said.{tally_said};
ghost use Rattle.rows.specs.Said.{row_said};

pub mod steps;

use table::Task;
use tally::Tally;

// The words before the rows, of a row, and of a state.
pub const HEAD: usize = 3;

pub const STRIDE: usize = 20;

pub const STATE_WORDS: usize = 643;

// The words of a row that a tick reads or stores by themselves: ticks until the next release, the live job's work
// left, ticks left to its deadline, and its kind. The tally begins at its window.
pub const WAIT: usize = 7;

pub const WORK: usize = 9;

pub const LEFT: usize = 10;

pub const KIND: usize = 11;

const WINDOW: usize = 12;

// A state by value: the same words that a firmware saves.
#[derive(Clone, Copy, Debug, PartialEq, Eq)]
pub struct State {
    pub words: [u64; 643],
}

// One row: its task, the core (wait, place, live job) and the tally. The kind is a number, as it stands in a saved
// state: a row is read before it is known whether that is 0 or 1.
#[derive(Clone, Copy, Debug, PartialEq, Eq)]
pub struct Row {
    pub task: Task,
    pub wait: u64,
    pub place: u64,
    pub work: u64,
    pub left: u64,
    pub kind: u64,
    pub tally: Tally,
}

// Word j of row i.
pub fn word(words: &[u64], i: usize, j: usize) -> u64
    requires { (length words.now ≡ 643) × (i < 32) × (j < 20) }
    ensures { result ≡ get_or words.now (i * 20 + (3 + j)) 0 }
{
    words[i * STRIDE + (HEAD + j)]
}

// The task of row i, its first seven words. table's `task_at` reads words of 32 bits: one function for both would say
// of each of the seven words what its conversion gives.
#[tactic(auto, unfolding(law::specs::State::row_of, law::specs::Table::task_of))]
pub fn task_of(words: &[u64], i: usize) -> Task
    requires { (length words.now ≡ 643) × (i < 32) }
    ensures { task_said result ≡ (row_at words.now i).core.task }
{
    let at = i * STRIDE + HEAD;
    let &[id, c, t, d, m, k, p] = &words[at..at + WAIT] else {
        unreachable!()
    };
    Task {
        id,
        c,
        t,
        d,
        m,
        k,
        p,
    }
}

// The tally of row i, its last eight words.
#[tactic(auto, unfolding(law::specs::State::row_of))]
fn tally_of(words: &[u64], i: usize) -> Tally
    requires { (length words.now ≡ 643) × (i < 32) }
    ensures { tally_said result ≡ (row_at words.now i).tally }
{
    let at = i * STRIDE + HEAD;
    let &[window, released, mm, mx, om, ox, broken, held] = &words[at + WINDOW..at + STRIDE] else {
        unreachable!()
    };
    Tally {
        window,
        released,
        mm,
        mx,
        om,
        ox,
        broken,
        held,
    }
}

// Row i of a state's words.
#[tactic(auto, unfolding(law::specs::State::row_of))]
pub fn row_at(words: &[u64], i: usize) -> Row
    requires { (length words.now ≡ 643) × (i < 32) }
    ensures { row_said result ≡ row_at words.now i }
{
    let at = i * STRIDE + HEAD;
    let &[wait, place, work, left, kind] = &words[at + WAIT..at + WINDOW] else {
        unreachable!()
    };
    Row {
        task: task_of(words, i),
        wait,
        place,
        work,
        left,
        kind,
        tally: tally_of(words, i),
    }
}

// Another row i among a state's words. One store a word: one copy of the twenty words (`copy_from_slice`) was timed,
// and a tick of 2 rows went from 12 to 15 ns, one of 8 rows from 32 to 35.
#[tactic(auto, unfolding(law::specs::State::words_of, law::specs::State::sets_from))]
pub fn put_row(words: &mut [u64], i: usize, r: Row)
    requires { (length words.old ≡ 643) × (i < 32) }
    ensures { words.new ≡ sets_from words.old (i * 20) 3 (words_of (row_said r)) }
{
    let at = i * STRIDE;
    words[at + 3] = r.task.id;
    words[at + 4] = r.task.c;
    words[at + 5] = r.task.t;
    words[at + 6] = r.task.d;
    words[at + 7] = r.task.m;
    words[at + 8] = r.task.k;
    words[at + 9] = r.task.p;
    words[at + 10] = r.wait;
    words[at + 11] = r.place;
    words[at + 12] = r.work;
    words[at + 13] = r.left;
    words[at + 14] = r.kind;
    words[at + 15] = r.tally.window;
    words[at + 16] = r.tally.released;
    words[at + 17] = r.tally.mm;
    words[at + 18] = r.tally.mx;
    words[at + 19] = r.tally.om;
    words[at + 20] = r.tally.ox;
    words[at + 21] = r.tally.broken;
    words[at + 22] = r.tally.held;
}

// Another wait of row i. With `put_row` alone, which stores a row whole, a tick of 32 rows took 102 ns for 67.
pub fn put_wait(words: &mut [u64], i: usize, wait: u64)
    requires { (length words.old ≡ 643) × (i < 32) }
    ensures { words.new ≡ set words.old (i * 20 + 10) wait }
{
    words[i * STRIDE + (HEAD + WAIT)] = wait;
}

// Another wait, work and time left of row i: the words that a tick which settles nothing there changes.
pub fn put_going(words: &mut [u64], i: usize, wait: u64, work: u64, left: u64)
    requires { (length words.old ≡ 643) × (i < 32) }
    ensures { words.new ≡ set (set (set words.old (i * 20 + 10) wait) (i * 20 + 12) work) (i * 20 + 13) left }
{
    let at = i * STRIDE;
    words[at + (HEAD + WAIT)] = wait;
    words[at + (HEAD + WORK)] = work;
    words[at + (HEAD + LEFT)] = left;
}
