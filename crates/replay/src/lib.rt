// A replay: the same dispatcher, with the lengths of a log in place of C.
#![tactic(auto, using(crate::proofs::Usual::usual))]

ghost use Rattle.std.specs.Prelude.{◌≡◌, ◌+◌, ◌≤◌};
ghost use Rattle.law.specs.Tick.{clock_end};
ghost use Rattle.law.specs.State.{state_of};
ghost use Rattle.law.specs.Replay.{replay_told, replay_answer, replay_words as replay_words_law};
ghost use Rattle.rows.specs.Said.{Held, Fetched};
ghost use Rattle.replay.specs.Shown.{replayed_shown, Handed};

mod step;

use dispatch::After;
use dispatch::run::may_run;
use refusal::Refusal;
use rows::State;
use step::{enough, release_logged};
use tick::finish;
use tick::patterns::fetch;

// Ticks done and numbers used.
#[derive(Clone, Copy, Debug, PartialEq, Eq, Hash)]
pub struct Progress {
    pub ticks: u64,
    pub used: u64,
}

// At most n ticks, one after the other, and none from the first on that releases more jobs than the log has left. Where
// a number is out of range the words are left in the middle of a tick.
fn replay_ticks(
    words: &mut [u64],
    patterns: &[u64],
    n: u64,
    log: &[u32],
) -> Result<Progress, Refusal>
    requires { (Held 0 words.old) × ((state_of words.old).time + n ≤ clock_end) × (Fetched (state_of words.old).rows patterns.now) }
    ensures answer { replayed_shown result ≡ replay_told log.now n (state_of words.old) }
    ensures words { Handed (replayed_shown result) log.now n (state_of words.old) words.new }
{
    let mut used = 0;
    for done in 0..n {
        if !enough(words, log.len() - used) {
            return Ok(Progress {
                ticks: done,
                used: used as u64,
            });
        }
        used = release_logged(words, patterns, log, used)?;
        finish(words);
    }
    Ok(Progress {
        ticks: n,
        used: used as u64,
    })
}

// A replay of a state that is lent as words. It is made on a copy, since a number out of range may stand late in the
// log: a refused replay leaves every word as it was.
pub fn replay_words(words: &mut [u64], n: u32, log: &[u32]) -> Result<Progress, Refusal>
    ensures answer { replayed_shown result ≡ replay_answer words.old n log.now }
    ensures words { words.new ≡ replay_words_law words.old n log.now }
{
    may_run(words, n)?;
    let patterns = fetch(words);
    let mut copy = [0u64; 643];
    copy.copy_from_slice(words);
    let progress = replay_ticks(&mut copy, &patterns, u64::from(n), log)?;
    words.copy_from_slice(&copy);
    Ok(progress)
}

// A replay of a state that goes in by value and comes back.
pub fn replay(s: State, n: u32, log: &[u32]) -> After<Progress>
    ensures answer { replayed_shown result.answer ≡ replay_answer s.words n log.now }
    ensures state { result.state.words ≡ replay_words_law s.words n log.now }
{
    let mut words = s.words;
    let answer = replay_words(&mut words, n, log);
    After {
        answer,
        state: State { words },
    }
}
