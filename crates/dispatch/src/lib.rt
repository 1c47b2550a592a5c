// The dispatcher for callers: a fresh state, whether words are a well-formed state, one tick, a run, a row's counts and
// its met marks.
#![tactic(auto)]

pub mod counts;
pub mod held;
pub mod run;
pub mod start;
pub mod well;

use refusal::Refusal;
use rows::State;

// An answer, and the state after the call, which is handed back where it was refused too. `fresh`, `run` and `replay`
// each make one in four lines: a function over a closure would take the closure's clauses for these.
#[derive(Clone, Copy, Debug, PartialEq, Eq)]
pub struct After<T> {
    pub answer: Result<T, Refusal>,
    pub state: State,
}
