// Operations over a state, which stands in a room of the length asked, at most 672: 5 fresh, 6 run, 7 counts, 11 met
// marks, 14 replay.
use crate::numbers::{low_at, number_at, numbers_from, part_of, words_of};
use crate::show;
use crate::show::BEFORE;
use dispatch::counts::counts_words;
use dispatch::held::held_words;
use dispatch::run::{run_words, tick_words};
use dispatch::start::fresh_words;
use dispatch::well::is_well;
use refusal::Refusal;
use replay::replay_words;
use std::io;
use std::io::Write;

// A fresh state of a table, whose words are these numbers, and what follows on it.
fn over_fresh<W, F>(out: &mut W, case: &[u64], words: &[u64], then: F) -> io::Result<()>
where
    W: Write,
    F: FnOnce(&mut W, &mut [u64]) -> io::Result<()>,
    requires { F.IsAlwaysCallable then }
{
    let mut table = [0u32; 256];
    let mut state = [u64::from(BEFORE); 672];
    let n = words_of(words, &mut table);
    let length = part_of(case, 1, &state);
    show::counted(out, fresh_words(&table[..n], &mut state[..length]))?;
    then(out, &mut state[..length])
}

// `5 length words`: the number of rows, and the state.
pub(crate) fn fresh<W: Write>(out: &mut W, case: &[u64]) -> io::Result<()> {
    over_fresh(out, case, numbers_from(case, 2), |out, state| {
        show::state(out, state)
    })
}

// A fresh state, n ticks and the word at the place changed, where it has that word, and what follows on it: every
// longer operation.
fn over_damaged<W, F>(out: &mut W, case: &[u64], words: &[u64], then: F) -> io::Result<()>
where
    W: Write,
    F: FnOnce(&mut W, &mut [u64]) -> io::Result<()>,
    requires { F.IsAlwaysCallable then }
{
    over_fresh(out, case, words, |out, state| {
        show::done(out, run_words(state, low_at(case, 2)))?;
        if let Some(word) = state.get_mut(number_at(case, 3) as usize) {
            *word = number_at(case, 4);
        }
        then(out, state)
    })
}

// `6 length n place value more words`: fresh, n ticks, the word at the place changed, well formed or not, a tick, more
// ticks; an answer of each but the change, and the state.
pub(crate) fn damaged<W: Write>(out: &mut W, case: &[u64]) -> io::Result<()> {
    over_damaged(out, case, numbers_from(case, 6), |out, state| {
        show::done(out, is_well(state).then_some(()).ok_or(Refusal::State))?;
        show::done(out, tick_words(state))?;
        show::done(out, run_words(state, low_at(case, 5)))?;
        show::state(out, state)
    })
}

// `7 length n place value row room words`: fresh, n ticks, the word at the place changed, the counts of the row in a
// room of that length, at most 16; an answer of each but the change, and every word of the room.
pub(crate) fn counts<W: Write>(out: &mut W, case: &[u64]) -> io::Result<()> {
    over_damaged(out, case, numbers_from(case, 7), |out, state| {
        let mut room = [u64::from(BEFORE); 16];
        let length = part_of(case, 6, &room);
        show::done(
            out,
            counts_words(state, low_at(case, 5), &mut room[..length]),
        )?;
        show::words(out, &room[..length])
    })
}

// `11 length n place value row words`: fresh, n ticks, the word at the place changed, how many met marks the row has;
// an answer of each but the change.
pub(crate) fn held<W: Write>(out: &mut W, case: &[u64]) -> io::Result<()> {
    over_damaged(out, case, numbers_from(case, 6), |out, state| {
        show::answered(out, held_words(state, low_at(case, 5)))
    })
}

// `14 length n place value more count log words`: fresh, n ticks, the word at the place changed, a replay of at most
// `more` ticks with a log of `count` numbers, at most 512; an answer of each but the change, that of the replay as
// three numbers, and the state.
pub(crate) fn replay<W: Write>(out: &mut W, case: &[u64]) -> io::Result<()> {
    let mut log = [0u32; 512];
    let rest = numbers_from(case, 7);
    let count = part_of(case, 6, rest);
    let logged = words_of(&rest[..count], &mut log);
    over_damaged(out, case, &rest[count..], |out, state| {
        show::replayed(out, replay_words(state, low_at(case, 5), &log[..logged]))?;
        show::state(out, state)
    })
}
