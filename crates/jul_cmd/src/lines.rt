//! A line of text that is put together without memory.
ghost use Rattle.std.specs.Prelude.{◌≡◌, ◌+◌, ◌≤◌, ◌++◌, ℕ, List, [], length, decimal};

use arrayvec::ArrayVec;
use itoa::Buffer;
use std::marker::Model;

/// More bytes than any line has.
const LINE: usize = 256;

/// A line that is put together without memory. Contracts see its bytes.
#[derive(Drop)]
pub struct Line {
    text: ArrayVec<u8, LINE>,
}

impl Model for Line {
    ghost Value = { List ℕ };

    ghost view = { λ l. l.text.items };
}

impl Line {
    /// A line with nothing on it.
    pub fn new() -> Line
        ensures { result ≡ [] }
    {
        Line {
            text: ArrayVec::new(),
        }
    }

    /// A line of these bytes.
    pub fn of(text: &[u8]) -> Line
        requires { length text.now ≤ 256 }
        ensures text { result ≡ text.now }
        ensures len { length result ≡ length text.now }
    {
        let mut line = Line::new();
        line.put(text);
        line
    }

    /// Puts bytes behind those that are there.
    pub fn put(&mut self, piece: &[u8])
        requires { length self.old + length piece.now ≤ 256 }
        ensures text { self.new ≡ self.old ++ piece.now }
        ensures len { length self.new ≡ length self.old + length piece.now }
    {
        let _ = self.text.try_extend_from_slice(piece);
    }

    /// Puts the decimal text of `value`, without leading zeros.
    pub fn put_number(&mut self, value: u64)
        requires { length self.old + 20 ≤ 256 }
        ensures text { self.new ≡ self.old ++ decimal value }
        ensures len { length self.new ≤ length self.old + 20 }
    {
        let mut buffer = Buffer::new();
        self.put(buffer.format(value).as_bytes());
    }

    /// The bytes of the line.
    pub fn as_slice(&self) -> &[u8]
        ensures { result.now ≡ self.now }
    {
        self.text.as_slice()
    }
}
