// Reads a line of `slotlist` byte by byte: an entry, a removal, or any other line.
ghost use Rattle.std.specs.Prelude.{◌≡◌};
ghost use Rattle.slotlist_core.specs.Reading.{first_digit_lem, start_byte_lem, name_byte_lem, longer, gap_after_lem, number_byte_lem, byte_rule, complete, end_rule, new_rule};

use lines::input::{append_digit, digit_of};

const SPACE: u8 = 32;

// What a line has before the number that is being read: the numbers of an entry, or `remove`.
#[derive(Clone, Copy)]
pub enum Before {
    Nothing,
    One(u64),
    Two { start: u64, end: u64 },
    Removal,
}

// A line so far: nothing; the first letters of `remove`; a number with at least one digit; or a
// space, after which a number must begin. A wrong line stays wrong.
#[derive(Clone, Copy)]
pub enum Line {
    Start,
    Name(usize),
    Number(Before, u64),
    Gap(Before),
    Wrong,
}

// What a complete line says.
#[derive(Clone, Copy)]
pub enum Said {
    Entry { start: u64, end: u64, value: u64 },
    Remove(u64),
    Other,
}

fn first_digit(before: Before, b: u8) -> Line
    ensures { result ≡ first_digit_lem before b }
{
    match digit_of(b) {
        Some(d) => Line::Number(before, d),
        None => Line::Wrong,
    }
}

fn start_byte(b: u8) -> Line
    ensures { result ≡ start_byte_lem b }
{
    if b == b'r' {
        Line::Name(1)
    } else {
        first_digit(Before::Nothing, b)
    }
}

// A byte after k letters of `remove`.
fn name_byte(k: usize, b: u8) -> Line
    ensures { result ≡ name_byte_lem k b }
{
    let name = b"remove";
    if k < 6 {
        if b == name[k] {
            Line::Name(k + 1)
        } else {
            Line::Wrong
        }
    } else if b == SPACE {
        Line::Gap(Before::Removal)
    } else {
        Line::Wrong
    }
}

fn longer(before: Before, value: u64, d: u64) -> Line
    ensures { result ≡ longer before value d }
{
    match append_digit(value, d) {
        Some(v) => Line::Number(before, v),
        None => Line::Wrong,
    }
}

// A space after a number, which is then complete. A space after the last number makes the line
// wrong.
fn gap_after(before: Before, value: u64) -> Line
    ensures { result ≡ gap_after_lem before value }
{
    match before {
        Before::Nothing => Line::Gap(Before::One(value)),
        Before::One(start) => Line::Gap(Before::Two { start, end: value }),
        Before::Two { start: _, end: _ } | Before::Removal => Line::Wrong,
    }
}

fn number_byte(before: Before, value: u64, b: u8) -> Line
    ensures { result ≡ number_byte_lem before value b }
{
    match digit_of(b) {
        Some(d) => longer(before, value, d),
        None => if b == SPACE {
            gap_after(before, value)
        } else {
            Line::Wrong
        },
    }
}

// A line that ends with a number.
fn complete(before: Before, value: u64) -> Said
    ensures { result ≡ complete before value }
{
    match before {
        Before::Nothing | Before::One(_) => Said::Other,
        Before::Two { start, end } => Said::Entry { start, end, value },
        Before::Removal => Said::Remove(value),
    }
}

impl Line {
    // Returns the line with one more byte, which is not a line end.
    pub(crate) fn byte(self, b: u8) -> Line
        ensures { result ≡ byte_rule self b }
    {
        match self {
            Line::Start => start_byte(b),
            Line::Name(k) => name_byte(k, b),
            Line::Number(before, value) => number_byte(before, value, b),
            Line::Gap(before) => first_digit(before, b),
            Line::Wrong => Line::Wrong,
        }
    }

    // What the line says, now that it is complete.
    pub(crate) fn end(self) -> Said
        ensures { result ≡ end_rule self }
    {
        match self {
            Line::Number(before, value) => complete(before, value),
            Line::Start | Line::Name(_) | Line::Gap(_) | Line::Wrong => Said::Other,
        }
    }

    // Whether the line has no byte yet.
    pub(crate) fn is_new(self) -> bool
        ensures { result ≡ new_rule self }
    {
        matches!(self, Line::Start)
    }
}
