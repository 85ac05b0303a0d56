// Intervals of addresses, and ranges of two bounds.
ghost use Rattle.std.specs.Prelude.{◌≡◌};
ghost use Rattle.words.specs.Intervals.{passed, reached, admits, bound_of, proper, contains, extended, intersects};

pub use std::ops::Bound;

// A range: from `lo` to `hi`.
#[derive(Clone, Copy)]
pub struct Span {
    pub lo: Bound<u64>,
    pub hi: Bound<u64>,
}

// The addresses from `start` up to `end`, without `end` itself. The order is by start, then by end.
#[derive(Clone, Copy, PartialEq, Eq, PartialOrd, Ord)]
pub struct Interval {
    pub start: u64,
    pub end: u64,
}

// Returns the bound of a kind: 0 is Included, 1 is Excluded, and any other kind is Unbounded. The
// number x is not read if the bound is Unbounded. A caller that takes only the kinds 0 to 2 tests
// the kind first.
pub fn bound_of_kind(kind: u64, x: u64) -> Bound<u64>
    ensures { result ≡ bound_of kind x }
{
    match kind {
        0 => Bound::Included(x),
        1 => Bound::Excluded(x),
        _ => Bound::Unbounded,
    }
}

// For a lower bound: whether something that ends at `end` goes past it. An Excluded bound is passed
// like an Included one.
pub fn passed_by(lo: Bound<u64>, end: u64) -> bool
    ensures { result ≡ passed lo end }
{
    match lo {
        Bound::Included(x) | Bound::Excluded(x) => x < end,
        Bound::Unbounded => true,
    }
}

// For a lower bound: whether something that ends at `end` goes past it or touches it.
pub fn reached_by(lo: Bound<u64>, end: u64) -> bool
    ensures { result ≡ reached lo end }
{
    match lo {
        Bound::Included(x) | Bound::Excluded(x) => x <= end,
        Bound::Unbounded => true,
    }
}

// For an upper bound: whether it admits something that starts at `start`.
pub fn admits_start(hi: Bound<u64>, start: u64) -> bool
    ensures { result ≡ admits hi start }
{
    match hi {
        Bound::Included(x) => start <= x,
        Bound::Excluded(x) => start < x,
        Bound::Unbounded => true,
    }
}

impl Interval {
    // Whether the interval holds an address.
    pub fn is_proper(self) -> bool
        ensures { result ≡ proper self }
    {
        self.start < self.end
    }

    pub fn contains(self, other: Interval) -> bool
        ensures { result ≡ contains self other }
    {
        (self.start <= other.start) & (other.end <= self.end)
    }

    // Returns the least interval that contains both.
    pub fn extend(self, other: Interval) -> Interval
        ensures { result ≡ extended self other }
    {
        Interval {
            start: self.start.min(other.start),
            end: self.end.max(other.end),
        }
    }

    pub fn intersects_range(self, range: Span) -> bool
        ensures { result ≡ intersects range self }
    {
        passed_by(range.lo, self.end) & admits_start(range.hi, self.start)
    }
}
