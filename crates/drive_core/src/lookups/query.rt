// The QUERY of a lookup, as numbers.
use iter::rules::Query;
use words::interval::{Bound, Interval, Span};

// The bound that a kind and a number are: 0 is Included, 1 Excluded, and 2 with the number 0 is
// Unbounded.
fn bound(kind: u64, x: u64) -> Option<Bound<u64>> {
    match (kind, x) {
        (0, _) => Some(Bound::Included(x)),
        (1, _) => Some(Bound::Excluded(x)),
        (2, 0) => Some(Bound::Unbounded),
        _ => None,
    }
}

fn span(lo_kind: u64, lo: u64, hi_kind: u64, hi: u64) -> Option<Span> {
    Some(Span {
        lo: bound(lo_kind, lo)?,
        hi: bound(hi_kind, hi)?,
    })
}

// The query at the front of the numbers, and the numbers after it: `o BOUND BOUND`, `r RULE BOUND
// BOUND` or `e START END`.
pub(crate) fn split<'a>(kind: &[u8], numbers: &'a [u64]) -> Option<(Query, &'a [u64])> {
    match (kind, numbers) {
        (b"o ", [a, x, b, y, rest @ ..]) => Some((Query::Overlap(span(*a, *x, *b, *y)?), rest)),
        (b"r ", [rule, a, x, b, y, rest @ ..]) => {
            Some((Query::Ruled(*rule, span(*a, *x, *b, *y)?), rest))
        }
        (b"e ", [start, end, rest @ ..]) => {
            let exact = Interval {
                start: *start,
                end: *end,
            };
            Some((Query::Exact(exact), rest))
        }
        _ => None,
    }
}
