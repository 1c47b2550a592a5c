// A task table: a lent run of 32-bit words, seven to a row, and its checks in their order.
#![tactic(auto)]

ghost use Rattle.std.specs.Prelude.{◌≡◌, [], ◌∷◌, ◌++◌, ◌+◌, ◌*◌, ◌/◌, ◌<◌, ◌≤◌, length, take, drop, unwrap_or, IfSome, IfOk, IfErr};
ghost use Rattle.law.specs.Refusal.{accepted, refused};
ghost use Rattle.law.specs.Table.{Ranged, WellFormed, task_at, table_of, row, repeated, RowNumber, fault_of, rows_checked, checked};
ghost use Rattle.refusal.specs.Shown.{shown, answered};
ghost use Rattle.table.specs.Said.{task_said};

use refusal::{Refusal, is_within};

// A row, by its words as they stand before they are checked: so p is a number, 0 for even and 1 for deeply-red.
#[derive(Clone, Copy, Debug, PartialEq, Eq)]
pub struct Task {
    pub id: u64,
    pub c: u64,
    pub t: u64,
    pub d: u64,
    pub m: u64,
    pub k: u64,
    pub p: u64,
}

// The words of a row.
pub const WIDTH: usize = 7;

// A row of a table: the one place that knows the order of a row's words.
#[tactic(auto, unfolding(law::specs::Table::task_of))]
pub fn task_at(words: &[u32], row: usize) -> Task
    requires { row < length words.now / 7 }
    ensures { task_said result ≡ task_at words.now row }
{
    let at = row * WIDTH;
    let &[id, c, t, d, m, k, p] = &words[at..at + WIDTH] else {
        unreachable!()
    };
    Task {
        id: u64::from(id),
        c: u64::from(c),
        t: u64::from(t),
        d: u64::from(d),
        m: u64::from(m),
        k: u64::from(k),
        p: u64::from(p),
    }
}

// The number of the first refusal that applies to a row; `twice` tells whether its id stands in an earlier row.
#[tactic(auto, unfolding(law::specs::Table::fault_of))]
pub fn row_fault(r: Task, twice: bool) -> Option<u64>
    ensures number { unwrap_or result 0 ≡ fault_of (task_said r) twice }
    ensures fault { IfSome result RowNumber }
{
    if !is_within(1, 65535, r.id) {
        return Some(4);
    }
    if !is_within(1, 65535, r.t) {
        return Some(5);
    }
    if !is_within(1, r.t, r.d) {
        return Some(6);
    }
    if !is_within(1, 65535, r.c) {
        return Some(7);
    }
    if !is_within(1, 64, r.k) {
        return Some(8);
    }
    if !is_within(1, r.k, r.m) {
        return Some(9);
    }
    // p is neither even nor deeply-red
    let other = 1 < r.p;
    if other {
        return Some(16);
    }
    if twice {
        return Some(10);
    }
    None
}

// The refusal of a row, by its number: a `match` over the numbers, the form that document 01 names.
fn row_refusal(number: u64, row: u64) -> Refusal
    requires { RowNumber number }
    ensures { shown result ≡ refused number (row ∷ []) }
{
    match number {
        4 => Refusal::Id(row),
        5 => Refusal::T(row),
        6 => Refusal::D(row),
        7 => Refusal::C(row),
        8 => Refusal::K(row),
        9 => Refusal::M(row),
        16 => Refusal::P(row),
        _ => Refusal::Repeated(row),
    }
}

// Whether a row's id stands in an earlier row.
#[tactic(auto, using(crate::proofs::Earlier::earlier_ids))]
fn is_repeated(words: &[u32], row: usize) -> bool
    requires { row < length words.now / 7 }
    ensures { result ≡ repeated (table_of words.now) row }
{
    let id = task_at(words, row).id;
    for j in 0..row {
        if task_at(words, j).id == id {
            return true;
        }
    }
    false
}

// The rows of a table, from the first on.
#[tactic(auto, using(crate::proofs::Faults::clean_at_first, crate::proofs::Faults::clean_to_end))]
fn check_rows(words: &[u32]) -> Result<usize, Refusal>
    ensures answer { answered result ≡ rows_checked (table_of words.now) }
    ensures rows { IfOk result (λ n. n ≡ length words.now / 7) }
{
    let rows = words.len() / WIDTH;
    for i in 0..rows {
        if let Some(number) = row_fault(task_at(words, i), is_repeated(words, i)) {
            return Err(row_refusal(number, i as u64));
        }
    }
    Ok(rows)
}

// Whether a lent run of words, of any length, is a task table: the first refusal that applies, or the number of rows.
#[tactic(auto, unfolding(law::specs::Table::checked))]
pub fn check(words: &[u32]) -> Result<usize, Refusal>
    ensures answer { answered result ≡ checked words.now }
    ensures rows { IfOk result (λ n. n ≡ length words.now / 7) }
{
    let n = words.len();
    if n % WIDTH != 0 {
        return Err(Refusal::NotWholeRows);
    }
    if n / WIDTH == 0 {
        return Err(Refusal::NoRows);
    }
    if 32 < n / WIDTH {
        return Err(Refusal::ManyRows);
    }
    check_rows(words)
}

// A run of words that is a task table.
#[derive(Clone, Copy)]
pub struct Table<'a> {
    pub words: &'a [u32],
    pub ghost well_formed: { WellFormed (table_of words.now) },
}

impl<'a> Table<'a> {
    // The table in a lent run of words, where the check accepts it.
    #[tactic(auto, using(law::proofs::Table::checked_accepted))]
    pub fn new(words: &'a [u32]) -> Result<Table<'a>, Refusal>
        ensures words { IfOk result (λ table. table.words.now ≡ words.now) }
        ensures accepted { IfOk result (λ table. checked words.now ≡ accepted (length (table_of words.now) ∷ [])) }
        ensures refused { IfErr result (λ refusal. checked words.now ≡ shown refusal) }
    {
        check(words)?;
        Ok(Table { words })
    }

    // The number of rows.
    #[tactic(auto, using(law::proofs::Table::table_length))]
    pub fn rows(self) -> usize
        ensures { result ≡ length (table_of self.entry.words.now) }
    {
        self.words.len() / WIDTH
    }

    // Row i, which is in its ranges.
    #[tactic(auto, using(law::proofs::Table::table_length, law::proofs::Table::table_row))]
    pub fn task(self, i: usize) -> Task
        requires { i < length (table_of self.words.now) }
        ensures said { task_said result ≡ row (table_of self.entry.words.now) i }
        ensures ranged { Ranged (task_said result) }
    {
        task_at(self.words, i)
    }
}

// The first n words of a run, laid into the start of a lent room: one call of std's, under the name by which
// docs/CONTRACTS.md speaks of it.
pub fn lay(words: &[u32], n: usize, room: &mut [u32])
    requires { (n ≤ length words.now) × (n ≤ length room.old) }
    ensures { room.new ≡ take n words.now ++ drop n room.old }
{
    room[..n].copy_from_slice(&words[..n]);
}
