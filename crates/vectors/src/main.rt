// The stored cases: a line of standard input puts one question to a public function, and a line of standard output
// answers it. A line is the operation's number and the numbers that it takes; the answer repeats the operation's
// number.
#![tactic(auto)]

mod ask;
mod numbers;
mod run;
mod show;
mod texts;

ghost use Rattle.std.specs.Prelude.{◌≡◌, length};

use intake::{StandardInput, read_full};
use numbers::{number_at, numbers_of};
use std::io;
use std::io::{Read, Write};

// One case. A number that is no operation's is answered by itself alone. A match, since a table of functions would not
// show each operation's number beside it.
fn answer<W: Write>(out: &mut W, case: &[u64]) -> io::Result<()> {
    let operation = number_at(case, 0);
    write!(out, "{operation}")?;
    match operation {
        1 => ask::job(out, case),
        2 => ask::word(out, case),
        3 => ask::check(out, case),
        4 => ask::judge(out, case),
        5 => run::fresh(out, case),
        6 => run::damaged(out, case),
        7 => run::counts(out, case),
        8 => texts::read(out, case),
        9 => texts::write(out, case),
        10 => texts::print(out, case),
        11 => run::held(out, case),
        12 => texts::to_new(out, case),
        13 => texts::to_old(out, case),
        14 => run::replay(out, case),
        15 => ask::rooms(out, case),
        _ => Ok(()),
    }?;
    out.write_all(b"\n")
}

// Every case of the text.
fn answer_all<W: Write>(out: &mut W, text: &[u8]) -> io::Result<()> {
    let mut case = [0u64; 2048];
    for line in text.split_inclusive(|byte| *byte == b'\n') {
        let n = numbers_of(line, &mut case);
        answer(out, &case[..n])?;
    }
    Ok(())
}

// A run of bytes for an input. A Vec would rest on what is assumed of the C library's heap, which this program doesn't.
fn large_room() -> [u8; 589824]
    ensures { 589824 ≡ length result }
{
    [0; 589824]
}

// Every case of an input that the room takes.
fn answer_input<R: Read, W: Write>(input: &mut R, out: &mut W, room: &mut [u8]) -> io::Result<()> {
    let n = read_full(input, room)?;
    answer_all(out, &room[..n])
}

fn main(rt: HostRuntime) -> io::Result<()> {
    let mut room = large_room();
    answer_input(
        &mut StandardInput::new(rt.stdin()),
        &mut rt.stdout(),
        &mut room,
    )
}
