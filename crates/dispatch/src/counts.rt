// The counts of one row of a state, and its spare.
ghost use Rattle.std.specs.Prelude.{◌≡◌, length, get_or};
ghost use Rattle.law.specs.Tick.{no_row};
ghost use Rattle.law.specs.State.{counts_of, counts_answer, counts_room, state_of};
ghost use Rattle.rows.specs.Said.{Held};
ghost use Rattle.refusal.specs.Shown.{done};
ghost use Rattle.dispatch.specs.Shown.{counts_said};

use crate::well::is_well;
use refusal::Refusal;
use rows::row_at;
use tally::spare;
use tick::rows_of;

// Released jobs, mandatory met and missed, optional met and missed, broken windows, and spare: how many further misses
// in a row are harmless.
#[derive(Clone, Copy, Debug, Default, PartialEq, Eq, Hash)]
pub struct Counts {
    pub released: u64,
    pub mm: u64,
    pub mx: u64,
    pub om: u64,
    pub ox: u64,
    pub broken: u64,
    pub spare: u64,
}

impl Counts {
    ghost use Rattle.dispatch.specs.Shown.{counts_said};

    // Its words, in the order in which they are laid and printed.
    pub fn words(self) -> [u64; 7]
        ensures { result ≡ counts_said self }
    {
        [
            self.released,
            self.mm,
            self.mx,
            self.om,
            self.ox,
            self.broken,
            self.spare,
        ]
    }
}

// The words that counts fill.
pub const COUNT_WORDS: usize = 7;

// The counts of row i. Where there is no such row, all are 0.
pub fn counts_of(words: &[u64], i: usize) -> Counts
    requires { Held 0 words.now }
    ensures { counts_said result ≡ counts_of (get_or (state_of words.now).rows i no_row) }
{
    if rows_of(words) <= i {
        return Counts::default();
    }
    let r = row_at(words, i);
    let y = r.tally;
    Counts {
        released: y.released,
        mm: y.mm,
        mx: y.mx,
        om: y.om,
        ox: y.ox,
        broken: y.broken,
        spare: spare(y.window, r.task.m, r.task.k),
    }
}

// The counts of row i of a state that is lent as words, laid into the first words of a lent room.
pub fn counts_words(words: &[u64], i: u32, room: &mut [u64]) -> Result<(), Refusal>
    ensures answer { done result ≡ counts_answer words.now (length room.old) }
    ensures room { room.new ≡ counts_room words.now i room.old }
{
    if !is_well(words) {
        return Err(Refusal::State);
    }
    if room.len() < COUNT_WORDS {
        return Err(Refusal::Room);
    }
    let counts = counts_of(words, i as usize);
    room[..COUNT_WORDS].copy_from_slice(&counts.words());
    Ok(())
}
