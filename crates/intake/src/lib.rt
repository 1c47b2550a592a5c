// What a program takes in: an input, as far as it fits a lent run of bytes, with no heap.
#![tactic(auto)]

ghost use Rattle.std.specs.Prelude.{◌≡◌, ◌≤◌, length, take, IfOk, IfSome};
ghost use Rattle.std.specs.Io.KnownBytes.{Consumes};

use std::io;
use std::io::{ErrorKind, Read, Stdin};

// Reads until the room is full or the input ends: how many bytes of the room were filled. They are the first bytes of
// the input, in their order, and all of them where the room is not full. Of std's reads, `read_exact` doesn't say how
// many bytes there were, `read_to_end` takes a heap, and `copy` into a cursor doesn't say what the reader has left. A
// read may be interrupted again and again: the range makes an end of that.
pub fn read_full<R: Read>(from: &mut R, room: &mut [u8]) -> io::Result<usize>
    ensures fits { IfOk result (λ n. n ≤ length room.new) }
    ensures first { IfOk result (λ n. IfSome (R.remaining from.old)
        (λ bytes. take n room.new ≡ take (length room.new) bytes)) }
    ensures rest { IfOk result (λ n. Consumes (R.remaining from.old) (R.remaining from.new) (take n room.new)) }
{
    let mut filled = 0;
    for _ in 0..u64::MAX {
        if filled >= room.len() {
            return Ok(filled);
        }
        match from.read(&mut room[filled..]) {
            Ok(0) => return Ok(filled),
            Ok(n) => filled += n,
            Err(e) if e.kind() == ErrorKind::Interrupted => {}
            Err(e) => return Err(e),
        }
    }
    Err(io::Error::from(ErrorKind::Interrupted))
}

// Standard input. One that is closed is an empty one, as in Rust.
#[derive(Drop)]
pub struct StandardInput(Stdin);

impl StandardInput {
    pub fn new(stdin: Stdin) -> StandardInput {
        StandardInput(stdin)
    }
}

// What a read of a file descriptor that is not open says (EBADF).
const NOT_OPEN: i32 = 9;

impl Read for StandardInput {
    fn read(&mut self, room: &mut [u8]) -> io::Result<usize> {
        match self.0.read(room) {
            Err(e) if e.raw_os_error() == Some(NOT_OPEN) => Ok(0),
            read => read,
        }
    }
}

#[cfg(test)]
mod tests {
    use super::*;

    // Gives one byte a read, and fails after so many.
    #[derive(Drop)]
    struct Failing(u8);

    impl Read for Failing {
        fn read(&mut self, room: &mut [u8]) -> io::Result<usize> {
            if self.0 == 0 {
                return Err(io::Error::from(ErrorKind::Other));
            }
            self.0 -= 1;
            if room.is_empty() {
                return Ok(0);
            }
            room[0] = b'x';
            Ok(1)
        }
    }

    #[test]
    fn reads_what_fits(rt: HostRuntime) -> io::Result<()> {
        let mut input: &[u8] = b"hello";
        let mut room = [0u8; 3];
        assert_eq!(rt; read_full(&mut input, &mut room)?, 3);
        assert_eq!(rt; &room, b"hel");
        assert_eq!(rt; read_full(&mut input, &mut room)?, 2);
        assert_eq!(rt; &room, b"lol");
        assert_eq!(rt; read_full(&mut input, &mut room)?, 0);
        Ok(())
    }

    #[test]
    fn fails_in_mid_stream(rt: HostRuntime) {
        let mut room = [0u8; 3];
        assert!(rt; read_full(&mut Failing(3), &mut room).is_ok());
        assert!(rt; read_full(&mut Failing(2), &mut room).is_err());
    }
}
