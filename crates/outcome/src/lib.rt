// What a converting program does: it reads, converts, and says the text on standard output and nothing else, or a
// refusal on standard error.
#![tactic(auto)]

ghost use Rattle.std.specs.Prelude.{◌≤◌, OnOk};
ghost use Rattle.std.specs.Io.KnownBytes.{Appends};
ghost use Rattle.law.specs.Refusal.{head};
ghost use Rattle.law.specs.Carry.{error_of};
ghost use Rattle.refusal.specs.Shown.{also_of, shown, answered};
ghost use Rattle.outcome.specs.Converts.{Converts, AlwaysTellable};
ghost use Rattle.outcome.specs.Tellable.{Tellable};
ghost use Rattle.outcome.specs.Tells.{Tells};

use intake::read_full;
use line::page::Page;
use refusal::Refusal;
use std::io;
use std::io::{Read, Write};

// A refusal in the house form.
#[tactic(auto, using(crate::proofs::Told::said))]
fn say<E: Write>(r: Refusal, error: &mut E) -> io::Result<()>
    requires { head (also_of r) ≤ 4294967295 }
    ensures { OnOk result (Appends (E.contents error.old) (E.contents error.new) (error_of (shown r))) }
{
    let mut page = Page::<33>::new();
    page.put_refusal(r, 0);
    error.write_all(page.as_slice())
}

// That nothing stands on standard error tells a program's caller that all went well. So a text that could not be
// written whole is told there too. An error is that of a write to `error`, and then nothing is known of what stands
// there. The answer is a length beside the run, as a conversion gives it: its room is longer than what it writes.
pub fn tell<O: Write, E: Write>(
    answer: Result<usize, Refusal>,
    text: &[u8],
    out: &mut O,
    error: &mut E,
) -> io::Result<()>
    requires { Tellable answer text.now }
    ensures { OnOk result (Tells (answered answer) text.now (O.contents out.old) (O.contents out.new)
        (E.contents error.old) (E.contents error.new)) }
{
    match answer {
        Ok(n) if n > 0 => match out.write_all(&text[..n]) {
            Ok(()) => Ok(()),
            Err(_) => error.write_all(b"not written whole\n"),
        },
        Ok(_) => Ok(()),
        Err(r) => say(r, error),
    }
}

// Reads the first 2,048 bytes of an input, converts them into a lent room by one call, and tells what it answers.
pub fn convert<R, O, E, F>(
    input: &mut R,
    room: &mut [u8],
    out: &mut O,
    error: &mut E,
    call: F,
) -> io::Result<()>
where
    R: Read,
    O: Write,
    E: Write,
    F: FnOnce(&[u8], &mut [u8]) -> Result<usize, Refusal>,
    requires callable { F.IsAlwaysCallable call }
    requires tellable { AlwaysTellable F.FnOnce call room.old }
    ensures { OnOk result (Converts F.FnOnce call (R.remaining input.old) room.old
        (O.contents out.old) (O.contents out.new) (E.contents error.old) (E.contents error.new)) }
{
    let mut text = [0u8; 2048];
    let n = read_full(input, &mut text)?;
    let answer = call(&text[..n], room);
    tell(answer, room, out, error)
}

#[cfg(test)]
mod tests {
    use super::*;

    // Takes so many bytes, and then no more.
    #[derive(Drop)]
    struct Full(usize);

    impl Write for Full {
        fn write(&mut self, bytes: &[u8]) -> io::Result<usize> {
            if self.0 == 0 {
                return Err(io::Error::from(io::ErrorKind::StorageFull));
            }
            let n = bytes.len().min(self.0);
            self.0 -= n;
            Ok(n)
        }

        fn flush(&mut self) -> io::Result<()> {
            Ok(())
        }
    }

    #[test]
    fn tells_a_text(rt: HostRuntime) -> io::Result<()> {
        let mut out = Vec::new(rt.alloc());
        let mut error = Vec::new(rt.alloc());
        tell(Ok(3), b"abcd", &mut out, &mut error)?;
        assert_eq!(rt; out.as_slice(), b"abc".as_slice());
        assert_eq!(rt; error.as_slice(), b"".as_slice());
        Ok(())
    }

    #[test]
    fn tells_a_refusal(rt: HostRuntime) -> io::Result<()> {
        let mut out = Vec::new(rt.alloc());
        let mut error = Vec::new(rt.alloc());
        tell(Err(Refusal::NotOld(2)), b"abcd", &mut out, &mut error)?;
        assert_eq!(rt; out.as_slice(), b"".as_slice());
        assert_eq!(rt; error.as_slice(), b"refused=17\nat=2\n".as_slice());
        Ok(())
    }

    #[test]
    fn tells_that_a_text_was_not_written_whole(rt: HostRuntime) -> io::Result<()> {
        let mut error = Vec::new(rt.alloc());
        tell(Ok(3), b"abcd", &mut Full(2), &mut error)?;
        assert_eq!(rt; error.as_slice(), b"not written whole\n".as_slice());
        Ok(())
    }

    #[test]
    fn tells_what_a_call_answers(rt: HostRuntime) -> io::Result<()> {
        let mut input: &[u8] = b"abc";
        let mut out = Vec::new(rt.alloc());
        let mut error = Vec::new(rt.alloc());
        convert(
            &mut input,
            &mut [0; 2],
            &mut out,
            &mut error,
            |text, room| {
                let n = text.len().min(room.len());
                room[..n].copy_from_slice(&text[..n]);
                Ok(n)
            },
        )?;
        assert_eq!(rt; out.as_slice(), b"ab".as_slice());
        assert_eq!(rt; error.as_slice(), b"".as_slice());
        Ok(())
    }

    #[test]
    fn fails_where_nothing_can_be_told(rt: HostRuntime) {
        let mut out = Full(9);
        assert!(rt; tell(Err(Refusal::NoRows), b"", &mut out, &mut Full(4)).is_err());
    }
}
