// What is printed, piece by piece, put on a page that has room for every answer.
ghost use Rattle.std.specs.Prelude.{[], ◌∷◌, ◌++◌, ◌≡◌, ◌+◌, ◌≤◌, length, replicate};
ghost use Rattle.law.specs.Table.{table_of};
ghost use Rattle.law.specs.State.{state_of, tasks_of};
ghost use Rattle.law.specs.Report.{printed_keys, number_lines, verdict_printed, rows_printed, run_printed};
ghost use Rattle.rows.specs.Said.{Held};
ghost use Rattle.dispatch.specs.Shown.{counts_said};
ghost use Rattle.report.specs.Said.{Small, Good, Responded, Roomed};

use dispatch::counts::{Counts, counts_of};
use dispatch::run::run_words;
use dispatch::start::fresh_words;
use line::page::Page;
use table::{WIDTH, task_at};
use verdict::judge;

// The lines of a row: its number, id, response time and room, its counts and spare.
fn print_row(page: &mut Page<5632>, i: usize, id: u64, r: u64, room: u64, c: Counts)
    requires { (length page.old + 169 ≤ 5632) × (Small (i ∷ id ∷ r ∷ room ∷ counts_said c)) }
    ensures { page.new ≡ page.old ++ number_lines printed_keys (i ∷ id ∷ r ∷ room ∷ counts_said c) }
{
    page.put_line(b"row=", i as u64);
    page.put_line(b"id=", id);
    page.put_line(b"r=", r);
    page.put_line(b"room=", room);
    page.put_line(b"released=", c.released);
    page.put_line(b"mm=", c.mm);
    page.put_line(b"mx=", c.mx);
    page.put_line(b"om=", c.om);
    page.put_line(b"ox=", c.ox);
    page.put_line(b"broken=", c.broken);
    page.put_line(b"spare=", c.spare);
}

// The verdict, and the row that doesn't fit; the response times come into `times`, which stays all 0 where a table is
// turned down.
fn print_verdict(page: &mut Page<5632>, words: &[u32], times: &mut [u32])
    requires { (length page.old + 36 ≤ 5632) × (Good words.now) × (times.old ≡ replicate 32 0) }
    ensures bytes { page.new ≡ page.old ++ verdict_printed (table_of words.now) }
    ensures times { Responded (table_of words.now) times.new }
{
    match judge(words, times) {
        Ok(_) => page.put(b"verdict=admitted\n"),
        Err(r) => {
            page.put(b"verdict=unschedulable\n");
            page.put_line(b"at=", r.place_or_zero());
        }
    }
}

// Every row of a table and its state, from the first on. The response times and the rooms are two runs, as `verdict`
// lays each into a lent one.
fn print_rows(page: &mut Page<5632>, words: &[u32], times: &[u32], rooms: &[u32], state: &[u64])
    requires { (length page.old ≤ 224) × (Good words.now) × (Responded (table_of words.now) times.now) × (Roomed (table_of words.now) rooms.now) × (Held 0 state.now) × (tasks_of (state_of state.now).rows ≡ table_of words.now) }
    ensures { page.new ≡ page.old ++ rows_printed (table_of words.now) (state_of state.now) (length (table_of words.now)) }
{
    for i in 0..words.len() / WIDTH {
        let c = counts_of(state, i);
        print_row(
            page,
            i,
            task_at(words, i).id,
            u64::from(times[i]),
            u64::from(rooms[i]),
            c,
        );
    }
}

// A table, its verdict, and its state after so many ticks from fresh. The rooms are asked for by themselves, since a
// table turned down has them too. Nothing is refused: the words are a table, and the rooms and the state are long
// enough.
pub(crate) fn print_run(page: &mut Page<5632>, words: &[u32], ticks: u32)
    requires { (page.old ≡ []) × (Good words.now) }
    ensures { page.new ≡ run_printed (table_of words.now) ticks }
{
    let mut rooms = [0u32; 32];
    let _ = verdict::rooms(words, &mut rooms);
    let mut times = [0u32; 32];
    print_verdict(page, words, &mut times);
    let mut state = [0u64; 643];
    let _ = fresh_words(words, &mut state);
    let _ = run_words(&mut state, ticks);
    page.put_line(b"ticks=", u64::from(ticks));
    page.put_line(b"idle=", state[2]);
    print_rows(page, words, &times, &rooms, &state);
}
