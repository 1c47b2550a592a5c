// The verdict: whether every mandatory job of a table can meet its deadline, by the room that rows above leave each row
// and the first tick at which its load fits.
#![tactic(auto)]

ghost use Rattle.std.specs.Prelude.{◌++◌, ◌≡◌, ◌≤◌, ◌<◌, length, drop};
ghost use Rattle.law.specs.Pattern.{count as count_law, red_count};
ghost use Rattle.law.specs.Table.{table_of, count_of, Ranged};
ghost use Rattle.law.specs.Verdict.{demand as demand_law, above, verdict, verdict_room};
ghost use Rattle.law.specs.Room.{room_at, room as room_law, rooms as rooms_law, rooms_answer, rooms_lent};
ghost use Rattle.table.specs.Said.{task_said};
ghost use Rattle.refusal.specs.Shown.{answered};
ghost use Rattle.verdict.specs.Said.{fit_of, tried, responded};
ghost use Rattle.verdict.specs.Stretch.{next_release, until_of};

use refusal::Refusal;
use table::{Table, Task};

// What a row, or all rows above another, bring by a tick, and the next tick, from that one on, at which they release;
// of the rows above, the other's D at the latest.
#[derive(Clone, Copy)]
struct Standing {
    pub brought: u64,
    pub until: u64,
}

// How many of a row's first q jobs an even pattern makes mandatory. That the row is in its ranges is asked here and by
// the three functions below: a type for it would have the seven words of a `Task` once more.
#[tactic(auto, unfolding(law::specs::Pattern::count, law::specs::Sums::ceil))]
fn even_count(task: Task, q: u64) -> u64
    requires { (Ranged (task_said task)) × (q ≤ 65535) }
    ensures { result ≡ count_law task.m task.k q }
{
    // rounded up as the law writes it; std says its `div_ceil` by the remainder
    (q * task.m + (task.k - 1)) / task.k
}

// How many a deeply-red pattern does: m of every whole k, and of the q mod k after them the smaller of that number and
// m.
#[tactic(auto, unfolding(law::specs::Pattern::red_count))]
fn red_count(task: Task, q: u64) -> u64
    requires { (Ranged (task_said task)) × (q ≤ 65535) }
    ensures { result ≡ red_count task.m task.k q }
{
    let part = (q % task.k).min(task.m);
    q / task.k * task.m + part
}

// How many of a row's first q jobs are mandatory, by its own pattern.
#[tactic(auto, unfolding(law::specs::Table::count_of))]
fn count(task: Task, q: u64) -> u64
    requires { (Ranged (task_said task)) × (q ≤ 65535) }
    ensures { result ≡ count_of (task_said task) q }
{
    if task.p == 1 {
        red_count(task, q)
    } else {
        even_count(task, q)
    }
}

// What a row brings to those below it by t: C for each mandatory job that it releases before t; and its next release
// from t on.
#[tactic(auto, unfolding(law::specs::Verdict::demand, law::specs::Sums::ceil, crate::specs::Stretch::next_release))]
fn brings(task: Task, t: u64) -> Standing
    requires { (Ranged (task_said task)) × (t ≤ 65535) }
    ensures brought { result.brought ≡ demand_law (task_said task) t }
    ensures until { result.until ≡ next_release (task_said task) t }
{
    let q = (t + (task.t - 1)) / task.t;
    let brought = task.c * count(task, q);
    let until = q * task.t;
    Standing { brought, until }
}

// How all rows above a row stand at t: a stretch goes on until one of them releases, or the row's D.
#[tactic(auto, unfolding(crate::specs::Stretch::until_of))]
fn stretch(table: Table, row: usize, t: u64) -> Standing
    requires { (row < length (table_of table.words.now)) × (t ≤ 65535) }
    ensures brought { result.brought ≡ above (table_of table.entry.words.now) row t }
    ensures until { result.until ≡ until_of (table_of table.entry.words.now) row t }
{
    let mut brought = 0;
    let mut until = table.task(row).d;
    for j in 0..row {
        let s = brings(table.task(j), t);
        brought += s.brought;
        until = until.min(s.until);
    }
    Standing { brought, until }
}

// What rows above leave a row of the ticks up to t.
#[tactic(auto, unfolding(law::specs::Room::room_at))]
fn room_at(table: Table, row: usize, t: u64) -> u64
    requires { (row < length (table_of table.words.now)) × (t ≤ 65535) }
    ensures { result ≡ room_at (table_of table.entry.words.now) row t }
{
    t.saturating_sub(stretch(table, row, t).brought)
}

// The search for a row's room. Within a stretch t less the load is largest at the end, so the walk goes from stretch to
// stretch, and leaps over those in which it is at most the best found: what rows above bring never falls, so that no
// tick up to the best and what they bring by now gives more than the best. To begin with what is left at D makes the
// leaps long, unless rows above fill nearly every tick.
#[tactic(auto, using(crate::proofs::Walk::walking))]
fn search_room(table: Table, row: usize) -> u64
    requires { row < length (table_of table.words.now) }
    ensures { result ≡ room_law (table_of table.entry.words.now) row }
{
    let d = table.task(row).d;
    let mut best = room_at(table, row, d);
    let mut from = 1;
    // no range to go over: the next stretch is known once this one is
    while from <= d {
        let s = stretch(table, row, from);
        best = best.max(s.until.saturating_sub(s.brought));
        from = best + s.brought + 1;
    }
    best
}

// The first tick that fits a row, or that none does, which is when its C is above its room: both are the loop's
// answers, by `break`, the form that document 01 names. Where the load at t is above t, no tick up to that load fits:
// the search goes on there.
#[tactic(auto, using(crate::proofs::Seeking::seeking))]
fn search(table: Table, row: usize) -> Option<u64>
    requires { row < length (table_of table.words.now) }
    ensures { result ≡ fit_of (table_of table.entry.words.now) row }
{
    let own = table.task(row);
    let room = search_room(table, row);
    let mut t = 1;
    loop {
        if room < own.c {
            break None;
        }
        let load = own.c + stretch(table, row, t).brought;
        if load <= t {
            break Some(t);
        }
        t = load;
    }
}

// The response times, row by row from the top, or the first row that doesn't fit. They stand in an array of the most
// rows there can be, since a room is written only once every row fits, and without a heap.
fn respond(table: Table) -> Result<[u32; 32], Refusal>
    ensures { responded (table_of table.entry.words.now) result ≡ tried (table_of table.entry.words.now) }
{
    let rows = table.rows();
    let mut times = [0u32; 32];
    for (i, time) in times[..rows].iter_mut().enumerate() {
        let Some(t) = search(table, i) else {
            return Err(Refusal::Unschedulable(i as u64));
        };
        *time = t as u32;
    }
    Ok(times)
}

// The verdict on a lent run of words. Admitted, with the number of rows: the response times stand in the first words of
// the room, one per row. Refused: the room is as it was.
pub fn judge(words: &[u32], room: &mut [u32]) -> Result<usize, Refusal>
    ensures answer { answered result ≡ verdict words.now (length room.old) }
    ensures room { room.new ≡ verdict_room words.now room.old }
{
    let table = Table::new(words)?;
    let rows = table.rows();
    if room.len() < rows {
        return Err(Refusal::Room);
    }
    let times = respond(table)?;
    room[..rows].copy_from_slice(&times[..rows]);
    Ok(rows)
}

// The room of every row, from the top, in the first words of a lent run.
#[tactic(auto, using(crate::proofs::Laid::laid_next, crate::proofs::Walk::room_small))]
fn measure(table: Table, run: &mut [u32])
    requires { length (table_of table.words.now) ≤ length run.old }
    ensures { run.new ≡ rooms_law (table_of table.entry.words.now) ++ drop (length (table_of table.entry.words.now)) run.old }
{
    for (i, room) in run[..table.rows()].iter_mut().enumerate() {
        *room = search_room(table, i) as u32;
    }
}

// The rooms of a table in a lent run of words, one per row in its first words, whether the table is admitted or turned
// down: the number of rows. Refused: the run is as it was.
pub fn rooms(words: &[u32], run: &mut [u32]) -> Result<usize, Refusal>
    ensures answer { answered result ≡ rooms_answer words.now (length run.old) }
    ensures run { run.new ≡ rooms_lent words.now run.old }
{
    let table = Table::new(words)?;
    let rows = table.rows();
    if run.len() < rows {
        return Err(Refusal::Room);
    }
    measure(table, run);
    Ok(rows)
}
