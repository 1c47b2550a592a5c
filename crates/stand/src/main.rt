// The printing program: standard input to standard output, and nothing else. What is printed is `report`'s.
#![tactic(auto)]

ghost use Rattle.std.specs.Prelude.{◌≡◌, ◌≤◌, take, OnOk, IfSome};
ghost use Rattle.std.specs.Io.KnownBytes.{Appends};
ghost use Rattle.law.specs.Report.{printed};

use intake::{StandardInput, read_full};
use report::report;
use std::io;
use std::io::{Read, Write};

// What is printed for an input, at the start of a room that is long enough for all that is ever printed: its length.
// Nothing printed is longer than 5,632 bytes (`printed_most`, crates/law/proofs/Report.antt), so the room never is too
// short.
fn put_printed(input: &[u8], room: &mut [u8; 5632]) -> usize
    ensures fits { result ≤ 5632 }
    ensures bytes { take result room.new ≡ printed input.now }
{
    report(input, room).unwrap()
}

// Prints what is printed for all that the input has. No more than 1,848 bytes of an input are looked at (`printed_cut`,
// crates/law/proofs/Report.antt), so longer input may be cut.
fn print<R: Read, W: Write>(input: &mut R, output: &mut W) -> io::Result<()>
    ensures { OnOk result (IfSome (R.remaining input.old) (λ bytes.
        Appends (W.contents output.old) (W.contents output.new) (printed bytes))) }
{
    let mut text = [0u8; 2048];
    let n = read_full(input, &mut text)?;
    let mut room = [0u8; 5632];
    let m = put_printed(&text[..n], &mut room);
    output.write_all(&room[..m])
}

fn main(rt: HostRuntime) -> io::Result<()> {
    print(&mut StandardInput::new(rt.stdin()), &mut rt.stdout())
}
