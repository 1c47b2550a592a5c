// Task text read whole: rows of so many lines, their table, and the words laid into a lent room. The readers of a row
// and of a file take an answer apart by `let .. else` and stop at a fault, the form that document 01 names. The words
// stand at the start of a run, with the number of rows beside: there is no heap.
ghost use Rattle.std.specs.Prelude.{◌≡◌, ◌≤◌, ◌<◌, ◌*◌, length, take, IfErr};
ghost use Rattle.law.specs.Text.{row_keys, keys_of};
ghost use Rattle.law.specs.Reading.{lines_at, rows_at, words_read, text_answer, read_answer, read_room};
ghost use Rattle.refusal.specs.Shown.{answered};
ghost use Rattle.text.specs.Said.{stood, told};

use crate::reader::Reader;
use line::read::Fault;
use refusal::Refusal;
use table::{WIDTH, check, lay};

// The lines of a row of that many, as its words; the reader then stands behind them, or at the fault.
fn row_at(reader: &mut Reader, row: &mut [u32]) -> Result<(), Fault>
    requires { length row.old ≤ 7 }
    ensures read { told result row.new reader.new.at ≡ lines_at reader.old.text.now reader.old.at (take (length row.old) row_keys) }
    ensures stops { IfErr result (λ f. f.place ≡ reader.new.at) }
    ensures text { reader.new.text ≡ reader.old.text }
    ensures length { length row.new ≡ length row.old }
{
    for (j, word) in row.iter_mut().enumerate() {
        let Ok(value) = reader.next_value(j) else {
            return Err(Fault { place: reader.at });
        };
        *word = value as u32;
    }
    Ok(())
}

// The lines of so many rows, as words from the start.
fn rows_at(
    reader: &mut Reader,
    words: &mut [u32; 224],
    rows: usize,
    width: usize,
) -> Result<(), Fault>
    requires { (length words.old ≡ 224) × (rows ≤ 32) × (width ≤ 7) }
    ensures read { told result (take (rows * width) words.new) reader.new.at ≡ lines_at reader.old.text.now reader.old.at (keys_of (take width row_keys) rows) }
    ensures stops { IfErr result (λ f. f.place ≡ reader.new.at) }
    ensures text { reader.new.text ≡ reader.old.text }
    ensures length { length words.new ≡ 224 }
{
    for i in 0..rows {
        row_at(reader, &mut words[i * width..(i + 1) * width])?;
    }
    Ok(())
}

// The same, and nothing after them.
fn rows_to_end(
    reader: &mut Reader,
    words: &mut [u32; 224],
    rows: usize,
    width: usize,
) -> Result<(), Fault>
    requires { (length words.old ≡ 224) × (rows ≤ 32) × (width ≤ 7) }
    ensures read { told result (take (rows * width) words.new) reader.new.at ≡ rows_at (take width row_keys) reader.old.text.now reader.old.at rows }
    ensures stops { IfErr result (λ f. f.place ≡ reader.new.at) }
    ensures length { length words.new ≡ 224 }
{
    rows_at(reader, words, rows, width)?;
    if reader.at != reader.text.len() {
        return Err(Fault { place: reader.at });
    }
    Ok(())
}

// A text whose rows have the first `width` lines of a row: the number of its rows, whose words then stand from the
// start of `words`, so many a row; or the refusal of its lines.
pub fn rows_of(text: &[u8], words: &mut [u32; 224], width: usize) -> Result<usize, Refusal>
    requires { (length words.old ≡ 224) × (width ≤ 7) }
    ensures answer { answered result ≡ text_answer (take width row_keys) text.now }
    ensures words { stood result width words.new (words_read (take width row_keys) text.now) ≡ words_read (take width row_keys) text.now }
    ensures length { length words.new ≡ 224 }
{
    let mut reader = Reader { text, at: 0 };
    let Ok(rows) = reader.value_of(b"rows=") else {
        return Err(Refusal::Text(reader.at as u64));
    };
    if rows == 0 {
        return Err(Refusal::NoRows);
    }
    if 32 < rows {
        return Err(Refusal::ManyRows);
    }
    let Ok(()) = rows_to_end(&mut reader, words, rows as usize, width) else {
        return Err(Refusal::Text(reader.at as u64));
    };
    Ok(rows as usize)
}

// A task text, read into a lent room. Read: its words stand in the first words of the room, seven to a row. Refused:
// the room is as it was.
pub fn read(text: &[u8], room: &mut [u32]) -> Result<usize, Refusal>
    ensures answer { answered result ≡ read_answer text.now (length room.old) }
    ensures room { room.new ≡ read_room text.now room.old }
{
    let mut words = [0u32; 224];
    let rows = rows_of(text, &mut words, WIDTH)?;
    let n = rows * WIDTH;
    check(&words[..n])?;
    if room.len() < n {
        return Err(Refusal::Room);
    }
    lay(&words, n, room);
    Ok(rows)
}
