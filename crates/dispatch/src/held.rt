// The frame question: how many met marks a row of a state has.
ghost use Rattle.std.specs.Prelude.{◌≡◌};
ghost use Rattle.law.specs.State.{held_answer};
ghost use Rattle.refusal.specs.Shown.{answered};

use refusal::{Refusal, is_within};
use rows::{STATE_WORDS, word};

// The number of met marks that the window of row i holds, as it is stored, its word 19; 0 where there is no such row.
// It is read in every frame, so no row is gone through, and words are refused only where their number or the number of
// rows shows that they are no state.
#[tactic(auto, using(crate::proofs::Saved::frame_ways))]
pub fn held_words(words: &[u64], i: u32) -> Result<u64, Refusal>
    ensures { answered result ≡ held_answer words.now i }
{
    if words.len() != STATE_WORDS || !is_within(1, 32, words[0]) {
        return Err(Refusal::State);
    }
    if words[0] <= u64::from(i) {
        return Ok(0);
    }
    Ok(word(words, i as usize, 19))
}
