// What a tick does to one row: step 1, its release; steps 3 and 4, a tick of work, the passing of time, and settling.
ghost use Rattle.std.specs.Prelude.{◌≡◌, ◌-◌, ◌<◌};
ghost use Rattle.law.specs.Sums.{bit};
ghost use Rattle.law.specs.Table.{word_of};
ghost use Rattle.law.specs.Tick.{next_place, release_row, advance_row};
ghost use Rattle.law.specs.Pattern.{InRange};
ghost use Rattle.table.specs.Said.{task_said};
ghost use Rattle.tally.specs.Said.{tally_said, Countable};
ghost use Rattle.rows.specs.Said.{row_said, Timed, closed_row};

use crate::Row;
use book::{Pair, bit_at};
use table::Task;

// The next place in a pattern, from k - 1 to 0.
#[tactic(auto, unfolding(law::specs::Tick::next_place))]
fn next_place(task: Task, place: u64) -> u64
    requires { place < 64 }
    ensures { result ≡ next_place (task_said task) place }
{
    let next = place + 1;
    if next == task.k { 0 } else { next }
}

// The work that is left of a row that is chosen or not.
pub fn worked(work: u64, chosen: bool) -> u64
    ensures { result ≡ work - bit chosen }
{
    work.saturating_sub(u64::from(chosen))
}

impl Row {
    // Step 1: a row with wait 0 releases its next job, with the work given (C in a run), D ticks to its deadline and
    // its kind from its own pattern.
    #[tactic(auto, unfolding(law::specs::Tick::release), using(crate::proofs::Cases::releases))]
    pub fn release(&mut self, pattern: u64, work: u64)
        requires { (Timed 0 (row_said self.old)) × (self.old.wait ≡ 0) × (pattern ≡ word_of (task_said self.old.task)) }
        ensures { row_said self.new ≡ release_row work (row_said self.old) }
    {
        self.kind = u64::from(bit_at(pattern, self.place));
        self.place = next_place(self.task, self.place);
        self.wait = self.task.t;
        self.work = work;
        self.left = self.task.d;
        self.tally.released += 1;
    }

    // Step 4: the row's job is settled, met or missed. Its work, deadline and kind become 0, and its tally is lent to
    // the settling routine.
    fn close(&mut self, met: bool)
        requires { (InRange self.old.task.m self.old.task.k) × (Countable self.old.task.k (tally_said self.old.tally)) }
        ensures { row_said self.new ≡ closed_row (bit met) (row_said self.old) }
    {
        let pair = Pair {
            m: self.task.m,
            k: self.task.k,
        };
        self.tally.settle(self.kind, met, pair);
        self.work = 0;
        self.left = 0;
        self.kind = 0;
    }

    // Steps 3 and 4: the chosen row loses one unit of work, wait and the ticks left fall by one, and the job is settled
    // where it has no work left, or where its deadline has come.
    #[tactic(auto, unfolding(law::specs::Tick::advance), using(crate::proofs::Cases::outcomes))]
    pub fn advance(&mut self, chosen: bool)
        requires { Timed 1 (row_said self.old) }
        ensures { row_said self.new ≡ advance_row chosen (row_said self.old) }
    {
        self.wait -= 1;
        if self.work == 0 {
            return;
        }
        let rest = worked(self.work, chosen);
        if rest == 0 {
            self.close(true);
            return;
        }
        if self.left == 1 {
            self.close(false);
            return;
        }
        self.work = rest;
        self.left -= 1;
    }
}
