// A table's words as a task text, written into a lent room of bytes.
ghost use Rattle.std.specs.Prelude.{[], ◌≡◌, ◌+◌, ◌*◌, ◌%◌, ◌≤◌, ◌<◌, length, take};
ghost use Rattle.law.specs.Text.{row_keys};
ghost use Rattle.law.specs.Reading.{text_of, put_answer, put_room, write_answer, write_room};
ghost use Rattle.refusal.specs.Shown.{answered};

use line::page::Page;
use refusal::Refusal;
use table::{WIDTH, check};

// The number within its row of the line after line j: no division a line (by a remainder the text of 32 rows took 3.3
// µs for 3.1).
fn next_line(j: usize, width: usize) -> usize
    requires { j < width }
    ensures { result ≡ (j + 1) % width }
{
    if j + 1 == width { 0 } else { j + 1 }
}

// The whole text of rows of so many words, on an empty page. The page is lent: one that is handed back is copied, and
// the text of one row took half as long again.
fn put_text(words: &[u32], rows: usize, width: usize, page: &mut Page<1512>)
    requires { (page.old ≡ []) × (length words.now ≡ rows * width) × (rows ≤ 32) × (0 < width) × (width ≤ 7) × (length (text_of (take width row_keys) words.now) ≤ 1512) }
    ensures { page.new ≡ text_of (take width row_keys) words.now }
{
    page.put_line(b"rows=", rows as u64);
    let mut j = 0;
    for word in words {
        page.put_due(j, u64::from(*word));
        j = next_line(j, width);
    }
}

// The text of rows of so many words, at the start of a lent room: its length; refused: the room is as it was. The text
// is made apart from the room, since its length is known only then.
pub fn write_rows(
    words: &[u32],
    rows: usize,
    width: usize,
    room: &mut [u8],
) -> Result<usize, Refusal>
    requires { (length words.now ≡ rows * width) × (rows ≤ 32) × (0 < width) × (width ≤ 7) × (length (text_of (take width row_keys) words.now) ≤ 1512) }
    ensures answer { answered result ≡ put_answer (text_of (take width row_keys) words.now) (length room.old) }
    ensures room { room.new ≡ put_room (text_of (take width row_keys) words.now) room.old }
{
    let mut page = Page::new();
    put_text(words, rows, width, &mut page);
    page.write_into(room)
}

// The text of a table's words, at the start of a lent room: its length; refused: the room is as it was.
pub fn write(words: &[u32], room: &mut [u8]) -> Result<usize, Refusal>
    ensures answer { answered result ≡ write_answer words.now (length room.old) }
    ensures room { room.new ≡ write_room words.now room.old }
{
    let rows = check(words)?;
    write_rows(words, rows, WIDTH, room)
}
