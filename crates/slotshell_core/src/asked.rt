// What comes after the name of a command: numbers, or a range.
use iset::{Bound, Span};

// What comes after the blanks at the front of a text: spaces, tabs, and the carriage return of a
// line that ends in two bytes.
pub(crate) fn skip_blanks(text: &[u8]) -> &[u8] {
    let blanks = text
        .iter()
        .position(|b| !matches!(*b, b' ' | b'\t' | b'\r'));
    &text[blanks.unwrap_or(text.len())..]
}

// The letters at the front of a text, and what comes after them.
pub(crate) fn word(text: &[u8]) -> (&[u8], &[u8]) {
    let letters = text.iter().position(|b| !b.is_ascii_lowercase());
    text.split_at(letters.unwrap_or(text.len()))
}

// The number at the front of a text, if there is one, and if it is not above 2^64 - 1; and what
// comes after it.
fn number(text: &[u8]) -> Option<(u64, &[u8])> {
    let digits = text.iter().position(|b| !b.is_ascii_digit());
    let (digits, rest) = text.split_at(digits.unwrap_or(text.len()));
    let value = str::from_utf8(digits).ok()?.parse().ok()?;
    Some((value, rest))
}

// The numbers that a text is made of, with blanks between them, if there is nothing else, and if
// there is room for one more.
pub(crate) fn numbers<'a>(text: &[u8], room: &'a mut [u64]) -> Option<&'a [u64]> {
    let mut rest = skip_blanks(text);
    for n in 0..room.len() {
        if rest.is_empty() {
            return Some(&room[..n]);
        }
        let (value, after) = number(rest)?;
        room[n] = value;
        rest = skip_blanks(after);
    }
    None
}

// The number of a bound, or None for `..`, and what comes after it.
fn side(text: &[u8]) -> Option<(Option<u64>, &[u8])> {
    let text = skip_blanks(text);
    if let Some(rest) = text.strip_prefix(b"..") {
        return Some((None, skip_blanks(rest)));
    }
    let (value, rest) = number(text)?;
    Some((Some(value), skip_blanks(rest)))
}

fn bound(value: Option<u64>, excluded: bool) -> Bound<u64> {
    match value {
        Some(x) if excluded => Bound::Excluded(x),
        Some(x) => Bound::Included(x),
        None => Bound::Unbounded,
    }
}

// The range that a text is made of: two bounds in brackets.
fn between(text: &[u8]) -> Option<Span> {
    let (open, rest) = text.split_first()?;
    let (lo, rest) = side(rest)?;
    let (hi, rest) = side(rest.strip_prefix(b",")?)?;
    let (close, rest) = rest.split_first()?;
    if !matches!(*open, b'[' | b'(') || !matches!(*close, b']' | b')') {
        return None;
    }
    if !skip_blanks(rest).is_empty() {
        return None;
    }
    Some(Span {
        lo: bound(lo, *open == b'('),
        hi: bound(hi, *close == b')'),
    })
}

// The range that a text is made of, if there is nothing else: `..`, or two bounds in brackets.
pub(crate) fn range(text: &[u8]) -> Option<Span> {
    let text = skip_blanks(text);
    if let Some(rest) = text.strip_prefix(b"..") {
        if skip_blanks(rest).is_empty() {
            return Some(Span {
                lo: Bound::Unbounded,
                hi: Bound::Unbounded,
            });
        }
    }
    between(text)
}
