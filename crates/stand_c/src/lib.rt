// The functions that a firmware, or a test in C or Rust, calls: numbers, lent words and lent bytes, and one answer
// convention.
#![tactic(auto)]

ghost use Rattle.std.specs.Prelude.{◌≡◌, length};
ghost use Rattle.law.specs.Pattern.{question, pair_word};
ghost use Rattle.law.specs.Table.{checked};
ghost use Rattle.law.specs.Verdict.{verdict as verdict_law, verdict_room};
ghost use Rattle.law.specs.Room.{rooms_answer, rooms_lent};
ghost use Rattle.law.specs.Reading.{read_answer, read_room, write_answer, write_room};
ghost use Rattle.law.specs.Carry.{to_new_answer, to_new_room, to_old_answer, to_old_room};
ghost use Rattle.law.specs.Report.{report_answer, report_room};
ghost use Rattle.law.specs.Replay.{replay_answer, replay_words};
ghost use Rattle.law.specs.State.{fresh_answer, fresh_words, run_answer, run_words, saved_answer, counts_answer, counts_room, held_answer};
ghost use Rattle.book.specs.Shown.{job_shown};
ghost use Rattle.refusal.specs.Shown.{shown, answered, done};
ghost use Rattle.replay.specs.Shown.{replayed_shown};
ghost use Rattle.stand_c.specs.Numbered.{numbered, numbered_two};

use refusal::Refusal;
use replay::Progress;

// Every answer: `refusal` is 0 and `value` the answer's value, or `refusal` is the number that documents 01 and 02 give
// the refusal and `value` the row or the place that goes with it, 0 where there is none. C has no enum with values.
#[repr(C)]
#[derive(Clone, Copy)]
pub struct Answer {
    pub refusal: u64,
    pub value: u64,
}

// The answer of a replay, which has two values: where `refusal` is 0, `value` is the ticks done and `used` the numbers
// used; otherwise `value` is the place that goes with the refusal and `used` is 0.
#[repr(C)]
#[derive(Clone, Copy)]
pub struct ReplayAnswer {
    pub refusal: u64,
    pub value: u64,
    pub used: u64,
}

// The one answer convention, over each kind of answer.
impl From<Refusal> for Answer {
    ghost from_gives = { λ r a. a ≡ numbered (shown r) };

    fn from(r: Refusal) -> Answer {
        Answer {
            refusal: r.number(),
            value: r.place_or_zero(),
        }
    }
}

impl From<Result<u64, Refusal>> for Answer {
    ghost from_gives = { λ r a. a ≡ numbered (answered r) };

    fn from(answer: Result<u64, Refusal>) -> Answer {
        match answer {
            Ok(value) => Answer { refusal: 0, value },
            Err(r) => r.into(),
        }
    }
}

impl From<Result<usize, Refusal>> for Answer {
    ghost from_gives = { λ r a. a ≡ numbered (answered r) };

    fn from(answer: Result<usize, Refusal>) -> Answer {
        answer.map(|n| n as u64).into()
    }
}

impl From<Result<bool, Refusal>> for Answer {
    ghost from_gives = { λ r a. a ≡ numbered (job_shown r) };

    fn from(answer: Result<bool, Refusal>) -> Answer {
        answer.map(u64::from).into()
    }
}

impl From<Result<(), Refusal>> for Answer {
    ghost from_gives = { λ r a. a ≡ numbered (done r) };

    fn from(answer: Result<(), Refusal>) -> Answer {
        answer.map(|_| 0u64).into()
    }
}

impl From<Result<Progress, Refusal>> for ReplayAnswer {
    ghost from_gives = { λ r a. a ≡ numbered_two (replayed_shown r) };

    fn from(answer: Result<Progress, Refusal>) -> ReplayAnswer {
        match answer {
            Ok(progress) => ReplayAnswer {
                refusal: 0,
                value: progress.ticks,
                used: progress.used,
            },
            Err(r) => ReplayAnswer {
                refusal: r.number(),
                value: r.place_or_zero(),
                used: 0,
            },
        }
    }
}

// Whether job number `job` of a task with m out of k is mandatory: 1, or 0 for optional.
#[unsafe(no_mangle)]
pub extern "C" fn gp_job(m: u32, k: u32, job: u32) -> Answer
    ensures { result ≡ numbered (question m k job) }
{
    book::ask(m, k, job).into()
}

// The pattern word of a pair.
#[unsafe(no_mangle)]
pub extern "C" fn gp_word(m: u32, k: u32) -> Answer
    ensures { result ≡ numbered (pair_word m k) }
{
    book::word_of(m, k).into()
}

// Whether a lent run of words is a task table: its number of rows.
#[unsafe(no_mangle)]
pub extern "C" fn gp_check(words: &[u32]) -> Answer
    ensures { result ≡ numbered (checked words.now) }
{
    table::check(words).into()
}

// The verdict on a table: its number of rows, and its response times in the first words of the room.
#[unsafe(no_mangle)]
pub extern "C" fn gp_verdict(words: &[u32], room: &mut [u32]) -> Answer
    ensures answer { result ≡ numbered (verdict_law words.now (length room.old)) }
    ensures room { room.new ≡ verdict_room words.now room.old }
{
    verdict::judge(words, room).into()
}

// The rooms of a table's rows, admitted or turned down: its number of rows, and the rooms in the first words of the
// room.
#[unsafe(no_mangle)]
pub extern "C" fn gp_rooms(words: &[u32], room: &mut [u32]) -> Answer
    ensures answer { result ≡ numbered (rooms_answer words.now (length room.old)) }
    ensures room { room.new ≡ rooms_lent words.now room.old }
{
    verdict::rooms(words, room).into()
}

// A task text read into words: its number of rows, and seven words a row in the first words of the room.
#[unsafe(no_mangle)]
pub extern "C" fn gp_read(text: &[u8], room: &mut [u32]) -> Answer
    ensures answer { result ≡ numbered (read_answer text.now (length room.old)) }
    ensures room { room.new ≡ read_room text.now room.old }
{
    text::read::read(text, room).into()
}

// A table's words written as a task text: its length, and the text in the first bytes of the room.
#[unsafe(no_mangle)]
pub extern "C" fn gp_write(words: &[u32], room: &mut [u8]) -> Answer
    ensures answer { result ≡ numbered (write_answer words.now (length room.old)) }
    ensures room { room.new ≡ write_room words.now room.old }
{
    text::write::write(words, room).into()
}

// An old task text as a new one, with `p=0` in every row, in the first bytes of the room: the length of the new text.
#[unsafe(no_mangle)]
pub extern "C" fn gp_to_new(text: &[u8], room: &mut [u8]) -> Answer
    ensures answer { result ≡ numbered (to_new_answer text.now (length room.old)) }
    ensures room { room.new ≡ to_new_room text.now room.old }
{
    carry::to_new(text, room).into()
}

// A new task text whose every p is 0 as an old one, in the first bytes of the room: the length of the old text.
#[unsafe(no_mangle)]
pub extern "C" fn gp_to_old(text: &[u8], room: &mut [u8]) -> Answer
    ensures answer { result ≡ numbered (to_old_answer text.now (length room.old)) }
    ensures room { room.new ≡ to_old_room text.now room.old }
{
    carry::to_old(text, room).into()
}

// The fresh state of a table, laid into the first 643 words of a room: its number of rows.
#[unsafe(no_mangle)]
pub extern "C" fn gp_fresh(table: &[u32], room: &mut [u64]) -> Answer
    ensures answer { result ≡ numbered (fresh_answer table.now (length room.old)) }
    ensures room { room.new ≡ fresh_words table.now room.old }
{
    dispatch::start::fresh_words(table, room).into()
}

// Whether 643 words are a well-formed state.
#[tactic(auto, unfolding(law::specs::State::saved_answer))]
#[unsafe(no_mangle)]
pub extern "C" fn gp_well(state: &[u64]) -> Answer
    ensures { result ≡ numbered (saved_answer state.now) }
{
    dispatch::well::is_well(state)
        .then_some(())
        .ok_or(Refusal::State)
        .into()
}

// One tick of a saved state.
#[unsafe(no_mangle)]
pub extern "C" fn gp_tick(state: &mut [u64]) -> Answer
    ensures answer { result ≡ numbered (run_answer state.old 1) }
    ensures state { state.new ≡ run_words state.old 1 }
{
    dispatch::run::tick_words(state).into()
}

// n ticks of a saved state.
#[unsafe(no_mangle)]
pub extern "C" fn gp_run(state: &mut [u64], n: u32) -> Answer
    ensures answer { result ≡ numbered (run_answer state.old n) }
    ensures state { state.new ≡ run_words state.old n }
{
    dispatch::run::run_words(state, n).into()
}

// At most n ticks of a saved state with the lengths of a log, one for each job that is released, in place of C. It
// stops before the first tick that releases more jobs than the log has left.
#[unsafe(no_mangle)]
pub extern "C" fn gp_replay(state: &mut [u64], n: u32, log: &[u32]) -> ReplayAnswer
    ensures answer { result ≡ numbered_two (replay_answer state.old n log.now) }
    ensures state { state.new ≡ replay_words state.old n log.now }
{
    replay::replay_words(state, n, log).into()
}

// The counts of one row of a saved state, in seven words of a room: released, mandatory met, mandatory missed, optional
// met, optional missed, broken windows, spare (misses left). Where there is no such row, all are 0.
#[unsafe(no_mangle)]
pub extern "C" fn gp_counts(state: &[u64], row: u32, room: &mut [u64]) -> Answer
    ensures answer { result ≡ numbered (counts_answer state.now (length room.old)) }
    ensures room { room.new ≡ counts_room state.now row room.old }
{
    dispatch::counts::counts_words(state, row, room).into()
}

// The frame question: the number of met marks of one row of a saved state, as it is stored; 0 where there is no such
// row. It is refused only by the number of words or of rows: whether the state is well formed is not looked at.
#[unsafe(no_mangle)]
pub extern "C" fn gp_held(state: &[u64], row: u32) -> Answer
    ensures { result ≡ numbered (held_answer state.now row) }
{
    dispatch::held::held_words(state, row).into()
}

// The printing program as a function: the length of what it prints for an input, and the bytes in the first bytes of
// the room. A room of 5,632 bytes is always long enough.
#[unsafe(no_mangle)]
pub extern "C" fn gp_report(input: &[u8], room: &mut [u8]) -> Answer
    ensures answer { result ≡ numbered (report_answer input.now (length room.old)) }
    ensures room { room.new ≡ report_room input.now room.old }
{
    report::report(input, room).into()
}
