// Lines of decimal numbers. Every byte string is read: a byte that is no digit ends a number, LF ends the line, a
// number of more than 64 bits wraps, and numbers past the end of their room are left out.
ghost use Rattle.std.specs.Prelude.{◌≤◌, length};

// A number with one digit more.
fn with_digit(number: u64, digit: u8) -> u64 {
    number.wrapping_mul(10).wrapping_add(u64::from(digit))
}

// The numbers of a line, laid into a room: how many there are. The count goes up where a number ends, not with each
// byte.
pub(crate) fn numbers_of(line: &[u8], room: &mut [u64]) -> usize
    ensures { result ≤ length room.new }
{
    let mut number = 0;
    let mut count = 0;
    for byte in line {
        if byte.is_ascii_digit() {
            number = with_digit(number, *byte - b'0');
        } else {
            if let Some(place) = room.get_mut(count) {
                *place = number;
                count += 1;
            }
            number = 0;
        }
    }
    count
}

// A number of a case; one that is missing is 0.
pub(crate) fn number_at(case: &[u64], i: usize) -> u64 {
    case.get(i).copied().unwrap_or(0)
}

// The numbers of a case from one on; none where it has no more.
pub(crate) fn numbers_from(case: &[u64], i: usize) -> &[u64] {
    case.get(i..).unwrap_or(&[])
}

// What a call takes or lends: a number's low bits.
pub(crate) trait Word: Copy + Into<u64> {
    fn low(number: u64) -> Self;
}

impl Word for u8 {
    fn low(number: u64) -> u8 {
        (number & 0xff) as u8
    }
}

impl Word for u32 {
    fn low(number: u64) -> u32 {
        (number & 0xffff_ffff) as u32
    }
}

// The low 32 bits of a number of a case.
pub(crate) fn low_at(case: &[u64], i: usize) -> u32 {
    u32::low(number_at(case, i))
}

// How much of a room a case asks for.
pub(crate) fn part_of<T>(case: &[u64], i: usize, room: &[T]) -> usize
    ensures { result ≤ length room.now }
{
    number_at(case, i).min(room.len() as u64) as usize
}

// Numbers laid into a room, as words: how many there are.
pub(crate) fn words_of<T: Word>(numbers: &[u64], room: &mut [T]) -> usize
    ensures { result ≤ length room.new }
{
    let n = numbers.len().min(room.len());
    for (word, number) in room.iter_mut().zip(numbers) {
        *word = T::low(*number);
    }
    n
}
