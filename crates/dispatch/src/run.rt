// A run of n ticks of a state, lent as words or by value.
ghost use Rattle.std.specs.Prelude.{◌≡◌};
ghost use Rattle.law.specs.State.{run_answer, run_words as run_words_law};
ghost use Rattle.refusal.specs.Shown.{done};

use crate::After;
use crate::well::is_well;
use refusal::Refusal;
use rows::State;
use tick::patterns::fetch;
use tick::ticks;

// Whether n ticks of a state can be made, or why not. It is looked at once, before the first of them.
pub fn may_run(words: &[u64], n: u32) -> Result<(), Refusal>
    ensures { done result ≡ run_answer words.now n }
{
    if !is_well(words) {
        return Err(Refusal::State);
    }
    let asked = u64::from(n);
    if 4294967295 < words[1] + asked {
        return Err(Refusal::Clock);
    }
    Ok(())
}

// n ticks of a state that is lent as words. A refused run leaves every word as it was.
pub fn run_words(words: &mut [u64], n: u32) -> Result<(), Refusal>
    ensures answer { done result ≡ run_answer words.old n }
    ensures words { words.new ≡ run_words_law words.old n }
{
    may_run(words, n)?;
    let patterns = fetch(words);
    ticks(words, &patterns, u64::from(n));
    Ok(())
}

// One tick of a state that is lent as words: a run of 1.
pub fn tick_words(words: &mut [u64]) -> Result<(), Refusal>
    ensures answer { done result ≡ run_answer words.old 1 }
    ensures words { words.new ≡ run_words_law words.old 1 }
{
    run_words(words, 1)
}

// n ticks of a state that goes in by value and comes back.
pub fn run(s: State, n: u32) -> After<()>
    ensures answer { done result.answer ≡ run_answer s.words n }
    ensures state { result.state.words ≡ run_words_law s.words n }
{
    let mut words = s.words;
    let answer = run_words(&mut words, n);
    After {
        answer,
        state: State { words },
    }
}
