// Reads a word of a text byte by byte: a number, or a name of at most seven letters.
ghost use Rattle.std.specs.Prelude.{◌≡◌};
ghost use Rattle.image_text.specs.Words.{word_digit, longer_name_lem, word_letter, word_byte, is_new_lem, is_name_lem, number_in, small_in, link_said};

use lines::input::{append_digit, digit_of};
use words::ix::U;

// The name of the undefined link, `-`: a 1 and then its letters, as digits of base 256.
const DASH: u64 = 301;

// A word so far. The letters of a name are digits of base 256, after a 1. A wrong word stays wrong.
#[derive(Clone, Copy)]
pub enum Word {
    Empty,
    Number(u64),
    Name(u64),
    Wrong,
}

// A number with one digit more. A number above 2^64 - 1 is wrong.
fn longer_number(value: u64, d: u64) -> Word
    ensures { result ≡ word_digit (Word.Number value) d }
{
    match append_digit(value, d) {
        Some(v) => Word::Number(v),
        None => Word::Wrong,
    }
}

// A name with one letter more. A name of more than seven letters is wrong.
fn longer_name(name: u64, b: u8) -> Word
    ensures { result ≡ longer_name_lem name b }
{
    if name < 72057594037927936 {
        Word::Name(name * 256 + u64::from(b))
    } else {
        Word::Wrong
    }
}

impl Word {
    fn with_digit(self, d: u64) -> Word
        ensures { result ≡ word_digit self d }
    {
        match self {
            Word::Empty => Word::Number(d),
            Word::Number(v) => longer_number(v, d),
            Word::Name(_) => Word::Wrong,
            Word::Wrong => Word::Wrong,
        }
    }

    fn with_letter(self, b: u8) -> Word
        ensures { result ≡ word_letter self b }
    {
        match self {
            Word::Empty => Word::Name(256 + u64::from(b)),
            Word::Number(_) => Word::Wrong,
            Word::Name(v) => longer_name(v, b),
            Word::Wrong => Word::Wrong,
        }
    }

    // Returns the word with one more byte.
    pub(crate) fn byte(self, b: u8) -> Word
        ensures { result ≡ word_byte self b }
    {
        match digit_of(b) {
            Some(d) => self.with_digit(d),
            None => self.with_letter(b),
        }
    }

    // Whether the word has no byte yet.
    pub(crate) fn is_new(self) -> bool
        ensures { result ≡ is_new_lem self }
    {
        matches!(self, Word::Empty)
    }

    // Whether the word is this name.
    pub(crate) fn is_name(self, name: u64) -> bool
        ensures { result ≡ is_name_lem self name }
    {
        match self {
            Word::Name(v) => v == name,
            Word::Empty | Word::Number(_) | Word::Wrong => false,
        }
    }

    // Returns the number, if the word is one.
    pub(crate) fn number(self) -> Option<u64>
        ensures { result ≡ number_in self }
    {
        match self {
            Word::Number(v) => Some(v),
            Word::Empty | Word::Name(_) | Word::Wrong => None,
        }
    }

    // Returns the number, if the word is one below U.
    pub(crate) fn small(self) -> Option<u64>
        ensures { result ≡ small_in self }
    {
        let v = self.number()?;
        if v < U { Some(v) } else { None }
    }

    // Returns the link: U for `-`, else as `small`.
    pub(crate) fn link(self) -> Option<u64>
        ensures { result ≡ link_said self }
    {
        if self.is_name(DASH) {
            Some(U)
        } else {
            self.small()
        }
    }
}
