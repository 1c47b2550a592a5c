// Answers on a writer, each number after a space: 0 and a value, or a refusal's number and its row or place.
ghost use Rattle.std.specs.Counts.{IsPrefixLen};

use refusal::Refusal;
use replay::Progress;
use std::io;
use std::io::Write;

// What a room holds before a call.
pub(crate) const BEFORE: u32 = 4000000007;

pub(crate) const BYTE_BEFORE: u8 = 255;

fn number<W: Write>(out: &mut W, x: u64) -> io::Result<()> {
    write!(out, " {x}")
}

pub(crate) fn answered<W: Write>(out: &mut W, answer: Result<u64, Refusal>) -> io::Result<()> {
    match answer {
        Ok(value) => {
            number(out, 0)?;
            number(out, value)
        }
        Err(r) => {
            number(out, r.number())?;
            number(out, r.place_or_zero())
        }
    }
}

// The same where the value counts rows or bytes.
pub(crate) fn counted<W: Write>(out: &mut W, answer: Result<usize, Refusal>) -> io::Result<()> {
    answered(out, answer.map(|n| n as u64))
}

// The same where there is no value: 0 in its place.
pub(crate) fn done<W: Write>(out: &mut W, answer: Result<(), Refusal>) -> io::Result<()> {
    answered(out, answer.map(|_| 0))
}

// A replay's answer has a second value: the numbers used, 0 where it is refused.
pub(crate) fn replayed<W: Write>(out: &mut W, answer: Result<Progress, Refusal>) -> io::Result<()> {
    answered(out, answer.map(|progress| progress.ticks))?;
    number(out, answer.map_or(0, |progress| progress.used))
}

// Every word of a room.
pub(crate) fn words<W: Write, T: Copy + Into<u64>>(out: &mut W, room: &[T]) -> io::Result<()> {
    for word in room {
        number(out, (*word).into())?;
    }
    Ok(())
}

// One number that every word of a room bears on.
fn digest(room: &[u64]) -> u64 {
    let mut sum = 0;
    for word in room {
        sum = (sum * 257 + word % 4294967291) % 4294967291;
    }
    sum
}

// How many words of a state are worth printing: the head and its rows, and the head alone where no state has as many
// rows. A room too short for a state has none.
fn state_length(state: &[u64]) -> usize
    ensures { IsPrefixLen result state.now }
{
    if state.len() < 643 {
        return 0;
    }
    match state[0] {
        rows @ 0..=32 => 3 + 20 * rows as usize,
        _ => 3,
    }
}

// A room for a state: its rows word by word, and all of it by its digest.
pub(crate) fn state<W: Write>(out: &mut W, room: &[u64]) -> io::Result<()> {
    let n = state_length(room);
    words(out, &room[..n])?;
    number(out, digest(room))
}
