// One row's tally: its window with the number of its met marks, its counts, and the settling routine that amends them.
#![tactic(auto)]

ghost use Rattle.std.specs.Prelude.{◌≡◌, ◌-◌, ◌<◌, ◌≤◌, ◌^◌};
ghost use Rattle.law.specs.Sums.{bit};
ghost use Rattle.law.specs.Tick.{shifted, marks, spare as spare_law};

use book::Pair;

// The window, newest mark in bit 0; the counts: released, mandatory met and missed, optional met and missed, broken
// windows; and the number of met marks that the window holds.
#[derive(Clone, Copy, Debug, PartialEq, Eq)]
pub struct Tally {
    pub window: u64,
    pub released: u64,
    pub mm: u64,
    pub mx: u64,
    pub om: u64,
    pub ox: u64,
    pub broken: u64,
    pub held: u64,
}

// The window of k marks after one more: the newest is bit 0, the mark that reaches bit k is cut. The mask is
// `book::low_bits` of k written out: with a call of that the proof doesn't close by `shift_is`.
#[tactic(auto, using(law::proofs::Window::shift_is))]
fn shift(window: u64, met: bool, k: u64) -> u64
    requires { (1 ≤ k) × (k ≤ 64) }
    ensures { result ≡ shifted k window (bit met) }
{
    let cut = 0xffff_ffff_ffff_ffff >> (64 - k);
    (window << 1 | u64::from(met)) & cut
}

// The met marks of a window, counted: for a tally that comes from outside. Settling amends the number that is kept.
// k alone is asked, so it takes no `Pair`.
#[tactic(auto, using(law::proofs::Window::marks_are_ones))]
pub fn marks_in(window: u64, k: u64) -> u64
    requires { window < 2 ^ k }
    ensures { result ≡ marks k window }
{
    u64::from(window.count_ones())
}

// The number of met marks after one more mark: the mark that comes in is added, and the mark that is cut, bit k - 1,
// is taken off. In this order the difference is never below 0.
#[tactic(auto, using(law::proofs::Window::marks_most, law::proofs::Window::marks_amended))]
fn amend(held: u64, window: u64, met: bool, k: u64) -> u64
    requires { (1 ≤ k) × (k ≤ 64) × (held ≡ marks k window) }
    ensures { result ≡ marks k (shifted k window (bit met)) }
{
    let cut = window >> (k - 1) & 1;
    held + u64::from(met) - cut
}

// How many further misses in a row the task can bear. From the newest mark on, marks are taken in until m of them are
// met: the marks not taken in may go. 0 where all k don't hold m. m may be any number, so it takes no `Pair`.
pub fn spare(window: u64, m: u64, k: u64) -> u64
    requires { k ≤ 64 }
    ensures { result ≡ spare_law m k window }
{
    let mut met = 0;
    for taken in 0..k {
        if m <= met {
            return k - taken;
        }
        met += window >> taken & 1;
    }
    0
}

impl Tally {
    ghost use Rattle.law.specs.Tick.{settled};
    ghost use Rattle.tally.specs.Said.{tally_said, Countable};

    // The tally after a job of that kind is settled, met or missed: the window shifts, the number of its met marks is
    // amended, one count goes up, and a window that then holds fewer than m met marks is counted as broken. The kind is
    // a number, 1 for mandatory and 0 for optional, as it stands in a saved state.
    #[tactic(auto, unfolding(law::specs::Tick::settled))]
    fn settled(self, kind: u64, met: bool, pair: Pair) -> Self
        requires { Countable pair.k (tally_said self) }
        ensures { tally_said result ≡ settled pair.m pair.k kind (bit met) (tally_said self) }
    {
        let window = shift(self.window, met, pair.k);
        let held = amend(self.held, self.window, met, pair.k);
        Tally {
            window,
            released: self.released,
            mm: self.mm + u64::from(kind == 1 && met),
            mx: self.mx + u64::from(kind == 1 && !met),
            om: self.om + u64::from(kind == 0 && met),
            ox: self.ox + u64::from(kind == 0 && !met),
            broken: self.broken + u64::from(held < pair.m),
            held,
        }
    }

    // The settling routine: it is lent a row's tally and amends it.
    pub fn settle(&mut self, kind: u64, met: bool, pair: Pair)
        requires { Countable pair.k (tally_said self.old) }
        ensures { tally_said self.new ≡ settled pair.m pair.k kind (bit met) (tally_said self.old) }
    {
        *self = self.settled(kind, met, pair);
    }
}
