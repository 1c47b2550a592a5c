// Pieces of text, put into a lent run of bytes at a place: a run of bytes, a line. The bytes before and after stay. A
// page puts by these what stands on it.
ghost use Rattle.std.specs.Prelude.{[], ◌≡◌, ◌+◌, ◌≤◌, ◌<◌, length, get_or};
ghost use Rattle.law.specs.Text.{row_keys};
ghost use Rattle.law.specs.Reading.{decimal};
ghost use Rattle.line.specs.Put.{put_at, line_of};

// How many digits a number has. A number is put digit by digit: by `itoa`, whose digits stand in a buffer of their own
// and are copied, the text of 8 rows took twice as long.
fn digits_in(v: u64) -> usize
    requires { v ≤ 4294967295 }
    ensures { result ≡ length (decimal v) }
{
    let mut n = 1;
    let mut rest = v;
    while 10 <= rest {
        rest /= 10;
        n += 1;
    }
    n
}

// The digits of a number, the last one first; answers the place after them.
fn put_decimal(out: &mut [u8], at: usize, v: u64) -> usize
    requires { (v ≤ 4294967295) × (at + length (decimal v) ≤ length out.old) }
    ensures place { result ≡ at + length (decimal v) }
    ensures bytes { out.new ≡ put_at out.old at (decimal v) }
{
    let end = at + digits_in(v);
    let mut place = end - 1;
    let mut rest = v;
    while 10 <= rest {
        out[place] = 48 + (rest % 10) as u8;
        rest /= 10;
        place -= 1;
    }
    out[place] = 48 + rest as u8;
    end
}

// A run of bytes; answers the place after it. Byte by byte: `copy_from_slice` asks for memmove here, which the
// archive's header does not list, and is slower on runs as short as these (the text of 32 rows took 3.1 µs for 2.6).
pub fn put_bytes(out: &mut [u8], at: usize, part: &[u8]) -> usize
    requires { at + length part.now ≤ length out.old }
    ensures place { result ≡ at + length part.now }
    ensures bytes { out.new ≡ put_at out.old at part.now }
{
    for (i, byte) in part.iter().enumerate() {
        out[at + i] = *byte;
    }
    at + part.len()
}

// A line: the key, the number, LF; answers the place after it.
pub fn put_line(out: &mut [u8], at: usize, key: &[u8], v: u64) -> usize
    requires { (v ≤ 4294967295) × (at + length (line_of key.now v) ≤ length out.old) }
    ensures place { result ≡ at + length (line_of key.now v) }
    ensures bytes { out.new ≡ put_at out.old at (line_of key.now v) }
{
    let value = put_bytes(out, at, key);
    let end = put_decimal(out, value, v);
    out[end] = b'\n';
    end + 1
}

// The line that is due by its number within its row; answers the place after it. Each arm has its key, as in
// `read::due_at`, so that the bytes of a key and their number are constants there: by a function that finds the key in
// a run of all keys the text of 8 rows took 1.6 times as long.
pub fn put_due(out: &mut [u8], at: usize, j: usize, v: u64) -> usize
    requires { (j < 7) × (v ≤ 4294967295) × (at + length (line_of (get_or row_keys j []) v) ≤ length out.old) }
    ensures place { result ≡ at + length (line_of (get_or row_keys j []) v) }
    ensures bytes { out.new ≡ put_at out.old at (line_of (get_or row_keys j []) v) }
{
    match j {
        0 => put_line(out, at, b"id=", v),
        1 => put_line(out, at, b"c=", v),
        2 => put_line(out, at, b"t=", v),
        3 => put_line(out, at, b"d=", v),
        4 => put_line(out, at, b"m=", v),
        5 => put_line(out, at, b"k=", v),
        _ => put_line(out, at, b"p=", v),
    }
}
