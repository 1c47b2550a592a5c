// Bytes with room for N, filled from the start on, piece by piece.
ghost use Rattle.std.specs.Prelude.{[], ◌∷◌, ◌≡◌, ◌+◌, ◌≤◌, ◌<◌, ◌++◌, List, ℕ, length, take, get_or};
ghost use Rattle.law.specs.Text.{row_keys};
ghost use Rattle.law.specs.Reading.{put_answer, put_room};
ghost use Rattle.refusal.specs.Shown.{answered};
ghost use Rattle.line.specs.Put.{line_of};

use crate::put::{put_bytes, put_due, put_line};
use refusal::Refusal;
use std::marker::Model;

#[derive(Drop)]
pub struct Page<const N: usize> {
    bytes: [u8; N],
    len: usize,
}

impl<const N: usize> Model for Page<N> {
    ghost Value = { List ℕ };

    ghost view = { λ p. take p.len p.bytes };

    ghost invariant = { λ p. p.len ≤ N };
}

impl<const N: usize> Page<N> {
    // An empty page.
    pub fn new() -> Self
        ensures { result ≡ [] }
    {
        Page {
            bytes: [0; N],
            len: 0,
        }
    }

    // What stands on the page.
    pub fn as_slice(&self) -> &[u8]
        ensures { result.now ≡ self.now }
    {
        &self.bytes[..self.len]
    }

    // A run of bytes more.
    pub fn put(&mut self, part: &[u8])
        requires { length self.old + length part.now ≤ N }
        ensures { self.new ≡ self.old ++ part.now }
    {
        let end = put_bytes(&mut self.bytes, self.len, part);
        self.len = end;
    }

    // One byte more.
    pub fn push(&mut self, byte: u8)
        requires { length self.old < N }
        ensures { self.new ≡ self.old ++ byte ∷ [] }
    {
        self.bytes[self.len] = byte;
        self.len += 1;
    }

    // A line more: the key, the number, LF.
    pub fn put_line(&mut self, key: &[u8], v: u64)
        requires { (v ≤ 4294967295) × (length self.old + length (line_of key.now v) ≤ N) }
        ensures line { self.new ≡ self.old ++ line_of key.now v }
        ensures few { length self.new ≤ length self.old + (length key.now + 11) }
    {
        self.len = put_line(&mut self.bytes, self.len, key, v);
    }

    // The line that is due, j being its number within its row.
    pub fn put_due(&mut self, j: usize, v: u64)
        requires { (j < 7) × (v ≤ 4294967295) × (length self.old + length (line_of (get_or row_keys j []) v) ≤ N) }
        ensures { self.new ≡ self.old ++ line_of (get_or row_keys j []) v }
    {
        self.len = put_due(&mut self.bytes, self.len, j, v);
    }

    // What stands on the page, at the start of a lent room: its length; refused: the room is as it was.
    pub fn write_into(&self, room: &mut [u8]) -> Result<usize, Refusal>
        ensures answer { answered result ≡ put_answer self.now (length room.old) }
        ensures room { room.new ≡ put_room self.now room.old }
    {
        let text = self.as_slice();
        if room.len() < text.len() {
            return Err(Refusal::Room);
        }
        room[..text.len()].copy_from_slice(text);
        Ok(text.len())
    }
}
