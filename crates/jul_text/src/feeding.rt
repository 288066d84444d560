//! Marks of a text that comes in pieces.
ghost use Rattle.std.specs.Prelude.{◌≡◌, ℕ, ◌+◌, ◌-◌, ◌<◌, ◌≤◌, ◌^◌, ◌++◌, List, [], ◌∷◌, length, take, slice_index, true, false, IfOk, OnOk, OnErr};
ghost use Rattle.std.specs.List.{list_all};
ghost use Rattle.jul_text.specs.Tokens.{is_white};
ghost use Rattle.jul_text.specs.declared.feeding.Open.TheVariants.{Number, Beyond, Minus, Signed, Letters};
ghost use Rattle.jul_text.specs.Shapes.{shape, marks_from};
ghost use Rattle.jul_text.specs.Cuts.{EndsWhite};
ghost use Rattle.jul_text.specs.Feeding.{header_text, IsOpen, IsFed, open_mark, as_list, ended_marks, last_mark, GrowAlike};

use crate::numerals::with_digit;
use crate::shapes::{Mark, Shape, mark_ended};
use crate::tokens::first_place;
use std::alloc::AllocError;

// What the bytes so far of a token are that may go on.
#[derive(Clone, Copy)]
enum Open {
    // No token is open.
    Nothing,
    // Digits, with their value.
    Number(u64),
    // Digits with a value of 2^64 or more.
    Beyond,
    // A minus sign alone.
    Minus,
    // A minus sign and digits.
    Signed,
    // The first bytes of a header word.
    Letters { weighted: bool, count: usize },
    // Anything else.
    Strange,
}

// A token's first byte.
#[inline]
fn begun(byte: u8) -> Open
    ensures { IsOpen result (byte ∷ []) }
{
    match byte {
        b'0'..=b'9' => Open::Number(u64::from(byte - b'0')),
        b'-' => Open::Minus,
        b'A' => Open::Letters {
            weighted: false,
            count: 1,
        },
        b'W' => Open::Letters {
            weighted: true,
            count: 1,
        },
        _ => Open::Strange,
    }
}

// Digits with this value, and one more byte.
#[inline]
fn after_number(value: u64, byte: u8) -> Open
    ensures { (t : List ℕ) → IsOpen (Number value) t → IsOpen result (t ++ byte ∷ []) }
{
    if !byte.is_ascii_digit() {
        return Open::Strange;
    }
    match with_digit(value, byte, u64::MAX) {
        Some(next) => Open::Number(next),
        None => Open::Beyond,
    }
}

// Digits beyond 2^64, and one more byte.
#[inline]
fn after_beyond(byte: u8) -> Open
    ensures { (t : List ℕ) → IsOpen Beyond t → IsOpen result (t ++ byte ∷ []) }
{
    if byte.is_ascii_digit() {
        Open::Beyond
    } else {
        Open::Strange
    }
}

// A minus sign and perhaps digits, and one more byte.
#[inline]
fn after_signed(byte: u8) -> Open
    ensures minus { (t : List ℕ) → IsOpen Minus t → IsOpen result (t ++ byte ∷ []) }
    ensures signed { (t : List ℕ) → IsOpen Signed t → IsOpen result (t ++ byte ∷ []) }
{
    if byte.is_ascii_digit() {
        Open::Signed
    } else {
        Open::Strange
    }
}

// A header word.
#[inline]
fn header(weighted: bool) -> &'static [u8]
    ensures { result.now ≡ header_text weighted }
{
    if weighted {
        b"WeightedAdjacencyGraph"
    } else {
        b"AdjacencyGraph"
    }
}

// The first bytes of a header word, and one more byte.
#[inline]
fn after_letters(weighted: bool, count: usize, byte: u8) -> Open
    ensures { (t : List ℕ) → IsOpen (Letters weighted count) t → IsOpen result (t ++ byte ∷ []) }
{
    let word = header(weighted);
    if count < word.len() && word[count] == byte {
        Open::Letters {
            weighted,
            count: count + 1,
        }
    } else {
        Open::Strange
    }
}

// The first bytes of a header word, or all, as a token.
fn settled_letters(weighted: bool, count: usize) -> Shape
    ensures { (t : List ℕ) → IsOpen (Letters weighted count) t → result ≡ shape t }
{
    if count < header(weighted).len() {
        return Shape::Other;
    }
    if weighted {
        Shape::Weighted
    } else {
        Shape::Plain
    }
}

// One more byte of a token.
#[inline]
fn after(held: Open, byte: u8) -> Open
    ensures { (t : List ℕ) → IsOpen held t → IsOpen result (t ++ byte ∷ []) }
{
    match held {
        Open::Nothing => begun(byte),
        Open::Number(value) => after_number(value, byte),
        Open::Beyond => after_beyond(byte),
        Open::Minus | Open::Signed => after_signed(byte),
        Open::Letters { weighted, count } => after_letters(weighted, count, byte),
        Open::Strange => Open::Strange,
    }
}

// More bytes of a token.
fn carried(held: Open, text: &[u8]) -> Open
    ensures { (t : List ℕ) → IsOpen held t → IsOpen result (t ++ text.now) }
{
    let mut now = held;
    for byte in text {
        now = after(now, *byte);
    }
    now
}

// The mark of a token that ends here, if one is open.
fn settled(start: u64, held: Open) -> Option<Mark>
    ensures { (t : List ℕ) → IsOpen held t → result ≡ open_mark start t }
{
    let shape = match held {
        Open::Nothing => return None,
        Open::Number(value) => Shape::Digits(value),
        Open::Beyond => Shape::Huge,
        Open::Signed => Shape::Negative,
        Open::Letters { weighted, count } => settled_letters(weighted, count),
        Open::Minus => Shape::Other,
        Open::Strange => Shape::Other,
    };
    Some(Mark { start, shape })
}

// Appends the mark of a token that ends here, if one is open.
fn push_settled(start: u64, held: Open, marks: &mut Vec<Mark>) -> Result<(), AllocError>
    ensures marks { (t : List ℕ) → IsOpen held t → OnOk result
        (marks.new.items ≡ marks.old.items ++ as_list (open_mark start t)) }
    ensures kept { take (length marks.old.items) marks.new.items ≡ marks.old.items }
{
    if let Some(mark) = settled(start, held) {
        marks.push(mark)?;
    }
    Ok(())
}

/// Takes a text in pieces and gives the marks of its tokens.
#[derive(Clone, Copy)]
pub struct Feeder {
    fed: u64,
    start: u64,
    held: Open,
}

impl Feeder {
    /// A feeder that was fed nothing.
    pub fn new() -> Feeder
        ensures fed { IsFed result [] }
        ensures count { result.fed ≡ 0 }
    {
        Feeder {
            fed: 0,
            start: 0,
            held: Open::Nothing,
        }
    }

    /// How many bytes were fed. Takes no memory.
    #[inline]
    pub fn count(&self) -> u64
        ensures { result ≡ self.now.fed }
    {
        self.fed
    }

    /// Appends the marks of the tokens that end in the next piece of the text.
    ///
    /// A token ends at the white byte behind it. After an error the feeder and the marks are as before.
    pub fn feed(&mut self, piece: &[u8], marks: &mut Vec<Mark>) -> Result<(), AllocError>
        requires { self.old.fed + length piece.now < 2 ^ 63 }

        ensures fed { (b : List ℕ) → IsFed self.old b → OnOk result (IsFed self.new (b ++ piece.now)) }
        ensures marks { (b : List ℕ) → IsFed self.old b → OnOk result
            (GrowAlike marks.old.items marks.new.items (ended_marks b) (ended_marks (b ++ piece.now))) }
        ensures count { OnOk result (self.new.fed ≡ self.old.fed + length piece.now) }

        ensures refused { OnErr result (self.new ≡ self.old) }
        ensures kept { OnErr result (marks.new.items ≡ marks.old.items) }
    {
        let before = marks.len();
        match self.fed_with(piece, marks) {
            Ok(next) => {
                *self = next;
                Ok(())
            }
            Err(error) => {
                marks.truncate(before);
                Err(error)
            }
        }
    }

    // The feeder after one more piece.
    fn fed_with(&self, piece: &[u8], marks: &mut Vec<Mark>) -> Result<Feeder, AllocError>
        requires { self.now.fed + length piece.now < 2 ^ 63 }

        ensures fed { (b : List ℕ) → IsFed self.now b → IfOk result (λ f. IsFed f (b ++ piece.now)) }
        ensures marks { (b : List ℕ) → IsFed self.now b → OnOk result
            (GrowAlike marks.old.items marks.new.items (ended_marks b) (ended_marks (b ++ piece.now))) }
        ensures count { IfOk result (λ f. f.fed ≡ self.now.fed + length piece.now) }
        ensures kept { OnErr result (take (length marks.old.items) marks.new.items ≡ marks.old.items) }
    {
        let fed = self.fed + piece.len() as u64;
        let end = first_place(piece, 0, true);
        let held = carried(self.held, &piece[..end]);
        if end == piece.len() {
            return Ok(Feeder {
                fed,
                start: self.start,
                held,
            });
        }
        push_settled(self.start, held, marks)?;
        let last = mark_ended(piece, end, self.fed, marks)?;
        Ok(Feeder {
            fed,
            start: self.fed + last as u64,
            held: carried(Open::Nothing, &piece[last..]),
        })
    }

    /// Goes past bytes of the text that are marked elsewhere. What was fed and they end in white bytes.
    pub fn pass(&mut self, piece: &[u8])
        requires { self.old.fed + length piece.now < 2 ^ 63 }

        ensures fed { (b : List ℕ) → IsFed self.old b → EndsWhite b → EndsWhite piece.now → IsFed self.new (b ++ piece.now) }
        ensures marks { (b : List ℕ) → IsFed self.old b → EndsWhite b → EndsWhite piece.now →
            ended_marks (b ++ piece.now) ≡ ended_marks b ++ marks_from self.old.fed piece.now 0 }
        ensures count { self.new.fed ≡ self.old.fed + length piece.now }
    {
        let fed = self.fed + piece.len() as u64;
        *self = Feeder {
            fed,
            start: fed,
            held: Open::Nothing,
        };
    }

    /// The mark of the token that the text ends within, if it does. Takes no memory.
    pub fn finish(self) -> Option<Mark>
        ensures { (b : List ℕ) → IsFed self b → result ≡ last_mark b }
    {
        settled(self.start, self.held)
    }
}
