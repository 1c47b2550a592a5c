// The reader: the lent text and a place in it, one value a call. Thin functions over the plain ones of `line`.
ghost use Rattle.std.specs.Prelude.{[], ◌≡◌, ◌≤◌, ◌<◌, length, get_or, IfErr};
ghost use Rattle.law.specs.Text.{row_keys};
ghost use Rattle.law.specs.Reading.{line_at};
ghost use Rattle.line.specs.Said.{said, place_of};
ghost use Rattle.text.specs.Said.{value_told};

use line::read::{Fault, Line, due_at, line_at};

// The lent text and the place to read from.
#[derive(Clone, Copy)]
pub(crate) struct Reader<'a> {
    pub text: &'a [u8],
    pub at: usize,
    ghost inside: { at ≤ length text.now },
}

impl<'a> Reader<'a> {
    // The value of a key's line at the reader's place. The place moves behind the line, or to the fault.
    pub(crate) fn value_of(&mut self, key: &[u8]) -> Result<u64, Fault>
        ensures value { value_told result self.new.at ≡ line_at self.old.text.now self.old.at key.now }
        ensures stops { IfErr result (λ f. f.place ≡ self.new.at) }
        ensures text { self.new.text ≡ self.old.text }
    {
        self.taken(line_at(self.text, self.at, key))
    }

    // The same of the line that is due, j being its number within its row.
    pub(crate) fn next_value(&mut self, j: usize) -> Result<u64, Fault>
        requires { j < 7 }
        ensures value { value_told result self.new.at ≡ line_at self.old.text.now self.old.at (get_or row_keys j []) }
        ensures stops { IfErr result (λ f. f.place ≡ self.new.at) }
        ensures text { self.new.text ≡ self.old.text }
    {
        self.taken(due_at(self.text, self.at, j))
    }

    // What a line said, and the place moved.
    fn taken(&mut self, answer: Result<Line, Fault>) -> Result<u64, Fault>
        requires { place_of answer ≤ length self.old.text.now }
        ensures value { value_told result self.new.at ≡ said answer }
        ensures stops { IfErr result (λ f. f.place ≡ self.new.at) }
        ensures text { self.new.text ≡ self.old.text }
    {
        match answer {
            Ok(line) => {
                self.at = line.next;
                Ok(line.value)
            }
            Err(fault) => {
                self.at = fault.place;
                Err(fault)
            }
        }
    }
}
