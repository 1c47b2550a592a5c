// Operations over task text: 8 read, 9 write, 10 report, 12 to the new form, 13 to the old one.
use crate::ask::over;
use crate::show::{BEFORE, BYTE_BEFORE};
use std::io;
use std::io::Write;

// `8 length bytes`: the number of rows, and every word of a room of that length, at most 256.
pub(crate) fn read<W: Write>(out: &mut W, case: &[u64]) -> io::Result<()> {
    over(
        out,
        case,
        &mut [0; 2048],
        &mut [BEFORE; 256],
        text::read::read,
    )
}

// `9 length words`: the length of the text, and every byte of a room of that length, at most 4,096.
pub(crate) fn write<W: Write>(out: &mut W, case: &[u64]) -> io::Result<()> {
    over(
        out,
        case,
        &mut [0; 256],
        &mut [BYTE_BEFORE; 4096],
        text::write::write,
    )
}

// `10 length bytes`: the length of what the printing program prints, and every byte of a room of that length, at most
// 4,096.
pub(crate) fn print<W: Write>(out: &mut W, case: &[u64]) -> io::Result<()> {
    over(
        out,
        case,
        &mut [0; 2048],
        &mut [BYTE_BEFORE; 4096],
        report::report,
    )
}

// `12 length bytes`: the length of the new text, and every byte of a room of that length, at most 4,096.
pub(crate) fn to_new<W: Write>(out: &mut W, case: &[u64]) -> io::Result<()> {
    over(
        out,
        case,
        &mut [0; 2048],
        &mut [BYTE_BEFORE; 4096],
        carry::to_new,
    )
}

// `13 length bytes`: the length of the old text, and every byte of a room of that length, at most 4,096.
pub(crate) fn to_old<W: Write>(out: &mut W, case: &[u64]) -> io::Result<()> {
    over(
        out,
        case,
        &mut [0; 2048],
        &mut [BYTE_BEFORE; 4096],
        carry::to_old,
    )
}
