// The program that carries a task text over: standard input to standard output, a refusal to standard error. What is
// written is `carry`'s. It differs from `to_old` by the room and the call: a program is what its name says, so there
// are two.
#![tactic(auto)]

use carry::to_new;
use intake::StandardInput;
use outcome::convert;
use std::io;

// No more than 1,836 bytes of an input are looked at (`new_cut` and `new_room_cut`, crates/law/proofs/CarrySizes.antt),
// and no text that is written is longer than 1,512 bytes (`new_enough`, there too): longer input may be cut, and the
// room never is too short.
fn main(rt: HostRuntime) -> io::Result<()> {
    convert(
        &mut StandardInput::new(rt.stdin()),
        &mut [0; 1512],
        &mut rt.stdout(),
        &mut rt.stderr(),
        to_new,
    )
}
