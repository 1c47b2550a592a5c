// Operations without a state: 1 job, 2 word, 3 check, 4 verdict, 15 rooms.
use crate::numbers::{Word, low_at, numbers_from, part_of, words_of};
use crate::show;
use crate::show::BEFORE;
use refusal::Refusal;
use std::io;
use std::io::Write;

// `1 m k job`: 1 for mandatory, 0 for optional.
pub(crate) fn job<W: Write>(out: &mut W, case: &[u64]) -> io::Result<()> {
    let answer = book::ask(low_at(case, 1), low_at(case, 2), low_at(case, 3));
    show::answered(out, answer.map(u64::from))
}

// `2 m k`: the pattern word.
pub(crate) fn word<W: Write>(out: &mut W, case: &[u64]) -> io::Result<()> {
    show::answered(out, book::word_of(low_at(case, 1), low_at(case, 2)))
}

// `3 words`: the number of rows.
pub(crate) fn check<W: Write>(out: &mut W, case: &[u64]) -> io::Result<()> {
    let mut table = [0u32; 256];
    let n = words_of(numbers_from(case, 1), &mut table);
    show::counted(out, table::check(&table[..n]))
}

// A call that takes the numbers of a case from 2 on, laid into `given`, and a room of the length that number 1 asks
// for: its answer, and every word of that room.
pub(crate) fn over<W, A, B, F>(
    out: &mut W,
    case: &[u64],
    given: &mut [A],
    room: &mut [B],
    call: F,
) -> io::Result<()>
where
    W: Write,
    A: Word,
    B: Word,
    F: FnOnce(&[A], &mut [B]) -> Result<usize, Refusal>,
    requires { F.IsAlwaysCallable call }
{
    let n = words_of(numbers_from(case, 2), given);
    let length = part_of(case, 1, room);
    show::counted(out, call(&given[..n], &mut room[..length]))?;
    show::words(out, &room[..length])
}

// `4 length words`: the number of rows, and every word of a room of that length, at most 64.
pub(crate) fn judge<W: Write>(out: &mut W, case: &[u64]) -> io::Result<()> {
    over(out, case, &mut [0; 256], &mut [BEFORE; 64], verdict::judge)
}

// `15 length words`: the number of rows, and every word of a room of that length, at most 64.
pub(crate) fn rooms<W: Write>(out: &mut W, case: &[u64]) -> io::Result<()> {
    over(out, case, &mut [0; 256], &mut [BEFORE; 64], verdict::rooms)
}
