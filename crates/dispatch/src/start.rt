// The fresh state of a table: nothing released, every window full of met marks.
ghost use Rattle.std.specs.Prelude.{◌≡◌, length, replicate};
ghost use Rattle.law.specs.Table.{Ranged, table_of};
ghost use Rattle.law.specs.Tick.{fresh_row, fresh as fresh_law};
ghost use Rattle.law.specs.State.{laid, fresh_answer, fresh_words as fresh_words_law};
ghost use Rattle.table.specs.Said.{task_said};
ghost use Rattle.rows.specs.Said.{row_said};
ghost use Rattle.refusal.specs.Shown.{answered};

use crate::After;
use book::low_bits;
use refusal::Refusal;
use rows::{Row, STATE_WORDS, State, put_row};
use table::{Table, Task};
use tally::Tally;

// A row before its first job: wait and place 0, nothing live, counts 0, a window of k met marks, so k of them held.
// Every field is written out, as document 01 lists them.
fn fresh_row(task: Task) -> Row
    requires { Ranged (task_said task) }
    ensures { row_said result ≡ fresh_row (task_said task) }
{
    let tally = Tally {
        window: low_bits(task.k),
        released: 0,
        mm: 0,
        mx: 0,
        om: 0,
        ox: 0,
        broken: 0,
        held: task.k,
    };
    Row {
        task,
        wait: 0,
        place: 0,
        work: 0,
        left: 0,
        kind: 0,
        tally,
    }
}

// The words of a table's fresh state: its number of rows, time 0, idle 0, and a fresh row for each task.
fn lay_fresh(table: Table, words: &mut [u64])
    requires { length words.old ≡ 643 }
    ensures { words.new ≡ laid (fresh_law (table_of table.entry.words.now)) }
{
    let rows = table.rows();
    words.fill(0);
    words[0] = rows as u64;
    for i in 0..rows {
        put_row(words, i, fresh_row(table.task(i)));
    }
}

// The fresh state of a table, laid into the first words of a lent room: its number of rows.
pub fn fresh_words(table: &[u32], room: &mut [u64]) -> Result<usize, Refusal>
    ensures answer { answered result ≡ fresh_answer table.now (length room.old) }
    ensures room { room.new ≡ fresh_words_law table.now room.old }
{
    let table = Table::new(table)?;
    if room.len() < STATE_WORDS {
        return Err(Refusal::Room);
    }
    lay_fresh(table, &mut room[..STATE_WORDS]);
    Ok(table.rows())
}

// The fresh state of a table by value; all zero where the table is refused.
pub fn fresh(table: &[u32]) -> After<usize>
    ensures answer { answered result.answer ≡ fresh_answer table.now 643 }
    ensures state { result.state.words ≡ fresh_words_law table.now (replicate 643 0) }
{
    let mut words = [0u64; 643];
    let answer = fresh_words(table, &mut words);
    After {
        answer,
        state: State { words },
    }
}
