// A refusal as it is printed: its number, and the row or place where there is one.
ghost use Rattle.std.specs.Prelude.{[], ◌∷◌, ◌++◌, ◌≡◌, ◌+◌, ◌≤◌, length, IfSome};
ghost use Rattle.law.specs.Refusal.{head};
ghost use Rattle.law.specs.Report.{refusal_printed, placed};
ghost use Rattle.refusal.specs.Shown.{number_of, also_of, listed};
ghost use Rattle.line.specs.Put.{put_at};

use crate::page::Page;
use crate::put::put_bytes;
use refusal::Refusal;

// The row or place that is printed with a refusal. A place in the task text counts from the first byte of the input:
// the text begins at `start`.
#[tactic(auto, unfolding(law::specs::Report::placed))]
fn printed_place(r: Refusal, start: u64) -> Option<u64>
    requires { start + head (also_of r) ≤ 4294967295 }
    ensures place { listed result ≡ placed start (number_of r) (also_of r) }
    ensures small { IfSome result (λ place. place ≤ 4294967295) }
{
    match r {
        Refusal::Text(place) => Some(start + place),
        _ => r.place(),
    }
}

impl<const N: usize> Page<N> {
    ghost use Rattle.law.specs.Refusal.{head};
    ghost use Rattle.law.specs.Report.{refusal_printed, placed};
    ghost use Rattle.refusal.specs.Shown.{number_of, also_of};

    // A refusal more: its number, then the row or place where there is one.
    pub fn put_refusal(&mut self, r: Refusal, start: u64)
        requires { (length self.old + 33 ≤ N) × (start + head (also_of r) ≤ 4294967295) }
        ensures { self.new ≡ self.old ++ refusal_printed (number_of r) (placed start (number_of r) (also_of r)) }
    {
        self.put_line(b"refused=", r.number());
        if let Some(place) = printed_place(r, start) {
            self.put_line(b"at=", place);
        }
    }
}

// A refusal, put at the start of a lent run of bytes; answers the place after it.
pub fn put_refusal(out: &mut [u8], r: Refusal, start: u64) -> usize
    requires { (33 ≤ length out.old) × (start + head (also_of r) ≤ 4294967295) }
    ensures place { result ≡ length (refusal_printed (number_of r) (placed start (number_of r) (also_of r))) }
    ensures bytes { out.new ≡ put_at out.old 0 (refusal_printed (number_of r) (placed start (number_of r) (also_of r))) }
{
    let mut page = Page::<33>::new();
    page.put_refusal(r, start);
    put_bytes(out, 0, page.as_slice())
}
