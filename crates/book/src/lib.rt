// The pattern book, and the question about one job.
#![tactic(auto)]

ghost use Rattle.std.specs.Prelude.{[], ◌∷◌, ◌≡◌, ◌<◌, ◌≤◌, ◌-◌, ◌/◌, ◌%◌, ◌^◌, eqb};
ghost use Rattle.law.specs.Refusal.{accepted};
ghost use Rattle.law.specs.Pattern.{InRange, the_book, pair_word, question};
ghost use Rattle.refusal.specs.Shown.{answered};
ghost use Rattle.book.specs.Shown.{job_shown};

mod words;

use refusal::{Refusal, is_within};
use words::BOOK;

// The whole book, where the program holds it: nothing is laid on the stack.
pub fn the_book() -> &'static [u64; 2080]
    ensures { result.now ≡ the_book }
{
    &BOOK
}

// The word whose first n bits are set, and no other: a deeply-red pattern with n of any k, and a window of n met
// marks. n is the m of a row or its k, so no `Pair` is asked.
#[tactic(auto, using(law::proofs::Window::cut_is))]
pub fn low_bits(n: u64) -> u64
    requires { (1 ≤ n) × (n ≤ 64) }
    ensures { result ≡ 2 ^ n - 1 }
{
    0xffff_ffff_ffff_ffff >> (64 - n)
}

// Whether the job at a place of a pattern is mandatory: the place's bit, brought down by a shift.
pub fn bit_at(pattern: u64, place: u64) -> bool
    requires { place < 64 }
    ensures { result ≡ eqb (pattern / 2 ^ place % 2) 1 }
{
    (pattern >> place) % 2 == 1
}

// A pair in range: m mandatory jobs out of k.
#[derive(Clone, Copy, Debug, PartialEq, Eq)]
pub struct Pair {
    pub m: u64,
    pub k: u64,
    ghost in_range: { InRange m k },
}

impl Pair {
    ghost use Rattle.law.specs.Pattern.{word, mandatory, pair_checked};
    ghost use Rattle.book.specs.Pair.{pair_shown};
    ghost use Rattle.book.specs.Remainder.{by_remainder};

    // The pair that a caller offers, or why it is none. k is looked at first.
    #[tactic(auto, using(crate::proofs::Pairs::tests))]
    pub fn new(m: u32, k: u32) -> Result<Self, Refusal>
        ensures { pair_shown result ≡ pair_checked m k (accepted (m ∷ k ∷ [])) }
    {
        let m = u64::from(m);
        let k = u64::from(k);
        if !is_within(1, 64, k) {
            return Err(Refusal::K(0));
        }
        if !is_within(1, k, m) {
            return Err(Refusal::M(0));
        }
        Ok(Pair { m, k })
    }

    // The word of the pair.
    #[tactic(auto, unfolding(law::specs::Pattern::place_of), using(law::proofs::Book::book_at))]
    pub fn word(self) -> u64
        ensures { result ≡ word self.m self.k }
    {
        let place = self.k * (self.k - 1) / 2 + self.m - 1;
        the_book()[place as usize]
    }

    // Whether a job is mandatory, by one remainder and without the book: the tuner asks several hundred times a
    // second. A remainder from 1 to k - m is that of an optional job. The product of a 32-bit number and one of at most
    // 64 is taken in 64 bits: it can't wrap.
    #[tactic(auto, unfolding(crate::specs::Remainder::by_remainder), using(crate::proofs::Remainder::told_by_rule))]
    fn is_mandatory(self, job: u32) -> bool
        ensures rule { result ≡ by_remainder self.m self.k job }
        ensures kind { result ≡ mandatory self.m self.k job }
    {
        let remainder = u64::from(job) * self.m % self.k;
        let most = self.k - self.m;
        remainder == 0 || most < remainder
    }
}

// The word of a pair that a caller offers.
#[tactic(auto, unfolding(law::specs::Pattern::pair_word), using(crate::proofs::Pairs::tested))]
pub fn word_of(m: u32, k: u32) -> Result<u64, Refusal>
    ensures { answered result ≡ pair_word m k }
{
    Ok(Pair::new(m, k)?.word())
}

// Is job number `job` of a task with m out of k mandatory?
#[tactic(auto, unfolding(law::specs::Pattern::question), using(crate::proofs::Pairs::tested))]
pub fn ask(m: u32, k: u32, job: u32) -> Result<bool, Refusal>
    ensures { job_shown result ≡ question m k job }
{
    Ok(Pair::new(m, k)?.is_mandatory(job))
}
