// A range as plain numbers. A lookup turns its range into them once. Then each test on the way is
// one comparison, and a bool for a bound that is not there.
ghost use Rattle.std.specs.Prelude.{◌≡◌};
ghost use Rattle.words.specs.Intervals.{passed, reached, admits};
ghost use Rattle.iter.specs.Limits.{low_of, top_of, is_below_lem, is_above_lem, lower, upper, limits_of};

use crate::ranges::{LAST, number_after};
use words::interval::{Bound, Span};

// The range from `low` up to `top`, without `top` itself. It has no lower bound if `below` is true,
// and no upper bound if `above` is true. An entry that is looked for ends after `past`: that is
// `low`, or by rule 2 the first whole address of the range.
#[derive(Clone, Copy)]
pub struct Limits {
    pub low: u64,
    pub past: u64,
    pub below: bool,
    pub top: u64,
    pub above: bool,
}

fn low_of(lo: Bound<u64>) -> u64
    ensures { result ≡ low_of lo }
{
    match lo {
        Bound::Included(x) => x,
        Bound::Excluded(x) => x,
        Bound::Unbounded => 0,
    }
}

fn is_below(lo: Bound<u64>) -> bool
    ensures { result ≡ is_below_lem lo }
{
    match lo {
        Bound::Included(_) => false,
        Bound::Excluded(_) => false,
        Bound::Unbounded => true,
    }
}

fn top_of(hi: Bound<u64>) -> u64
    ensures { result ≡ top_of hi }
{
    match hi {
        Bound::Included(x) => number_after(x),
        Bound::Excluded(x) => x,
        Bound::Unbounded => 0,
    }
}

// An upper bound that includes the greatest number admits everything.
fn is_above(hi: Bound<u64>) -> bool
    ensures { result ≡ is_above_lem hi }
{
    match hi {
        Bound::Included(x) => LAST <= x,
        Bound::Excluded(_) => false,
        Bound::Unbounded => true,
    }
}

impl Limits {
    // The limits of a walk that is pruned by `range`, for the entries past the lower bound of
    // `entries`.
    pub fn new(range: Span, entries: Span) -> Limits
        ensures { result ≡ limits_of range entries }
    {
        let lo = range.lo;
        let hi = range.hi;
        let from = entries.lo;
        Limits {
            low: low_of(lo),
            past: low_of(from),
            below: is_below(lo),
            top: top_of(hi),
            above: is_above(hi),
        }
    }

    // Whether an entry that ends at `end` goes past the lower bound.
    pub fn passed_by(self, end: u64) -> bool
        ensures { result ≡ passed (lower self.past self.below) end }
    {
        (self.past < end) | self.below
    }

    // Whether something that ends at `end` goes past the lower bound or touches it.
    pub fn reached_by(self, end: u64) -> bool
        ensures { result ≡ reached (lower self.low self.below) end }
    {
        (self.low <= end) | self.below
    }

    // Whether the upper bound admits something that starts at `start`.
    pub fn admits_start(self, start: u64) -> bool
        ensures { result ≡ admits (upper self.top self.above) start }
    {
        (start < self.top) | self.above
    }
}
