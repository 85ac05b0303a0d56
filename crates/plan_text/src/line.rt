// Reads a line of a plan byte by byte: two numbers with one space between them, or any other line.
ghost use Rattle.std.specs.Prelude.{◌≡◌};
ghost use Rattle.plan_text.specs.Line.{first_digit_lem, longer, gap_after_lem, number_byte_lem, byte_rule, complete, end_rule, new_rule};

use lines::input::{append_digit, digit_of};

const SPACE: u8 = 32;

// A line so far: nothing; a number with at least one digit, after the old slot if that is complete;
// or the old slot and a space, after which a number must begin. A wrong line stays wrong.
#[derive(Clone, Copy)]
pub enum Line {
    Start,
    Number(Option<u64>, u64),
    Gap(u64),
    Wrong,
}

// What a complete line says: a slot's old number and its new one.
#[derive(Clone, Copy)]
pub struct Move {
    pub old: u64,
    pub new: u64,
}

fn first_digit(before: Option<u64>, b: u8) -> Line
    ensures { result ≡ first_digit_lem before b }
{
    match digit_of(b) {
        Some(d) => Line::Number(before, d),
        None => Line::Wrong,
    }
}

fn longer(before: Option<u64>, value: u64, d: u64) -> Line
    ensures { result ≡ longer before value d }
{
    match append_digit(value, d) {
        Some(v) => Line::Number(before, v),
        None => Line::Wrong,
    }
}

// A space after a number, which is then complete. A space after the second number makes the line
// wrong.
fn gap_after(before: Option<u64>, value: u64) -> Line
    ensures { result ≡ gap_after_lem before value }
{
    match before {
        None => Line::Gap(value),
        Some(_) => Line::Wrong,
    }
}

fn number_byte(before: Option<u64>, value: u64, b: u8) -> Line
    ensures { result ≡ number_byte_lem before value b }
{
    match digit_of(b) {
        Some(d) => longer(before, value, d),
        None => if b == SPACE {
            gap_after(before, value)
        } else {
            Line::Wrong
        },
    }
}

// A line that ends with a number.
fn complete(before: Option<u64>, value: u64) -> Option<Move>
    ensures { result ≡ complete before value }
{
    let old = before?;
    Some(Move { old, new: value })
}

impl Line {
    // Returns the line with one more byte, which is not a line end.
    pub(crate) fn byte(self, b: u8) -> Line
        ensures { result ≡ byte_rule self b }
    {
        match self {
            Line::Start => first_digit(None, b),
            Line::Number(before, value) => number_byte(before, value, b),
            Line::Gap(old) => first_digit(Some(old), b),
            Line::Wrong => Line::Wrong,
        }
    }

    // What the line says, now that it is complete: nothing, if it is not two numbers.
    pub(crate) fn end(self) -> Option<Move>
        ensures { result ≡ end_rule self }
    {
        match self {
            Line::Number(before, value) => complete(before, value),
            Line::Start | Line::Gap(_) | Line::Wrong => None,
        }
    }

    // Whether the line has no byte yet.
    pub(crate) fn is_new(self) -> bool
        ensures { result ≡ new_rule self }
    {
        matches!(self, Line::Start)
    }
}
