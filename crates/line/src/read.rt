// One line of a task text, from a place in it: plain slices and numbers, over which text's reader is thin, as document
// 01 names the form.
ghost use Rattle.std.specs.Prelude.{[], ◌≡◌, ◌≤◌, ◌<◌, ◌+◌, length, get_or, true};
ghost use Rattle.law.specs.Text.{is_digit, is_value, number_of, row_keys};
ghost use Rattle.law.specs.Reading.{byte_at, key_length, digits_length, value_length, value_at, line_at};
ghost use Rattle.line.specs.Said.{said, place_of};

use refusal::is_within;

// What a line says: its value and the place after it.
#[derive(Clone, Copy, Debug, PartialEq, Eq)]
pub struct Line {
    pub value: u64,
    pub next: usize,
}

// The place of a fault.
#[derive(Clone, Copy, Debug, PartialEq, Eq)]
pub struct Fault {
    pub place: usize,
}

// The byte at a place. Past the end stands 256, which is no byte: so no test of the length is needed beside the tests
// of the bytes.
fn byte_at(text: &[u8], i: usize) -> u64
    ensures { result ≡ byte_at text.now i }
{
    text.get(i).map_or(256, |b| u64::from(*b))
}

// 0 to 9.
#[tactic(auto, unfolding(law::specs::Text::is_digit))]
fn is_digit(b: u64) -> bool
    ensures { result ≡ is_digit b }
{
    is_within(48, 57, b)
}

// How many bytes of the key stand at a place.
#[tactic(auto, using(crate::proofs::Reached::key_start, crate::proofs::Reached::key_cut, crate::proofs::Reached::key_further, crate::proofs::Reached::key_end))]
fn keyed_at(text: &[u8], at: usize, key: &[u8]) -> usize
    requires { at ≤ length text.now }
    ensures many { result ≡ key_length text.now at key.now }
    ensures inside { at + result ≤ length text.now }
{
    for (i, byte) in key.iter().enumerate() {
        if byte_at(text, at + i) != u64::from(*byte) {
            return i;
        }
    }
    key.len()
}

// How many digits stand at a place, four at most.
#[tactic(auto, using(crate::proofs::Reached::digits_start, crate::proofs::Reached::digits_cut, crate::proofs::Reached::digits_further, crate::proofs::Reached::digits_end))]
fn digits_at(text: &[u8], at: usize) -> usize
    requires { at ≤ length text.now }
    ensures { result ≡ digits_length text.now at }
{
    for n in 0..4 {
        if !is_digit(byte_at(text, at + n)) {
            return n;
        }
    }
    4
}

// How many bytes of a value stand at a place: 0, or a non-zero digit and the digits after it.
fn value_length(text: &[u8], at: usize) -> usize
    requires { at ≤ length text.now }
    ensures { result ≡ value_length text.now at }
{
    let b = byte_at(text, at);
    if b == 48 {
        return 1;
    }
    if !is_digit(b) {
        return 0;
    }
    1 + digits_at(text, at + 1)
}

// The number that a value says.
fn number(digits: &[u8]) -> u64
    requires { is_value digits.now ≡ true }
    ensures { result ≡ number_of digits.now }
{
    let mut v = 0;
    for digit in digits {
        v = v * 10 + u64::from(*digit - 48);
    }
    v
}

// The value at a place, and LF behind it.
fn value_at(text: &[u8], at: usize) -> Result<Line, Fault>
    requires { at ≤ length text.now }
    ensures found { said result ≡ value_at text.now at }
    ensures inside { place_of result ≤ length text.now }
{
    let n = value_length(text, at);
    let end = at + n;
    if n == 0 || byte_at(text, end) != 10 {
        return Err(Fault { place: end });
    }
    Ok(Line {
        value: number(&text[at..end]),
        next: end + 1,
    })
}

// The line of a key at a place.
pub fn line_at(text: &[u8], at: usize, key: &[u8]) -> Result<Line, Fault>
    requires { at ≤ length text.now }
    ensures found { said result ≡ line_at text.now at key.now }
    ensures inside { place_of result ≤ length text.now }
{
    let n = keyed_at(text, at, key);
    if n != key.len() {
        return Err(Fault { place: at + n });
    }
    value_at(text, at + n)
}

// The line that is due at a place: "Which key is due is decided by the line's number within its row." By a function
// that hands out the key the archive had a table of pointers, which a linker or a loader sets.
pub fn due_at(text: &[u8], at: usize, j: usize) -> Result<Line, Fault>
    requires { (at ≤ length text.now) × (j < 7) }
    ensures found { said result ≡ line_at text.now at (get_or row_keys j []) }
    ensures inside { place_of result ≤ length text.now }
{
    match j {
        0 => line_at(text, at, b"id="),
        1 => line_at(text, at, b"c="),
        2 => line_at(text, at, b"t="),
        3 => line_at(text, at, b"d="),
        4 => line_at(text, at, b"m="),
        5 => line_at(text, at, b"k="),
        _ => line_at(text, at, b"p="),
    }
}
