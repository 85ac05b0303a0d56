// The two rules of a range. By rule 1, the crate's, an entry intersects a range if it ends past the
// lower bound and the upper bound admits its start. By rule 2 some whole address lies in both. The
// two differ only if the lower bound is Excluded.
ghost use Rattle.std.specs.Prelude.{◌≡◌, false, cond, ◌&&◌, ◌+◌, leb, ltb};
ghost use Rattle.words.specs.Intervals.{admits};
ghost use Rattle.iter.specs.Ranges.{last, after, whole_from_lem, by_rule_lem, any_whole};

use words::interval::{Bound, Span, admits_start};

// The greatest number.
pub(crate) const LAST: u64 = 18446744073709551615;

// Returns the next number. The greatest one has none after it, and is returned itself.
pub(crate) fn number_after(x: u64) -> u64
    ensures { result ≡ after x }
{
    if x < LAST { x + 1 } else { x }
}

// Returns a lower bound by its first whole address.
fn whole_from(lo: Bound<u64>) -> Bound<u64>
    ensures { result ≡ whole_from_lem lo }
{
    match lo {
        Bound::Included(x) => Bound::Included(x),
        Bound::Excluded(x) => Bound::Included(number_after(x)),
        Bound::Unbounded => Bound::Unbounded,
    }
}

// Returns the range that an entry intersects by rule 1 exactly if it intersects `range` by the rule
// of a number. A number other than 2 is taken for 1.
pub fn by_rule(rule: u64, range: Span) -> Span
    ensures { result ≡ by_rule_lem rule range }
{
    let lo = range.lo;
    let hi = range.hi;
    if rule == 2 {
        return Span {
            lo: whole_from(lo),
            hi,
        };
    }
    range
}

// Whether an upper bound admits an address. Every number of 64 bits is one.
fn admits_address(hi: Bound<u64>, x: u64) -> bool
    ensures { result ≡ (leb x last && admits hi x) }
{
    admits_start(hi, x)
}

// Whether an upper bound admits the next number.
fn admits_after(hi: Bound<u64>, x: u64) -> bool
    ensures { result ≡ cond (ltb x last) (admits hi (x + 1)) false }
{
    if x < LAST {
        admits_start(hi, x + 1)
    } else {
        false
    }
}

// Whether some whole address lies in the range from `lo` to `hi`.
pub fn holds_whole(lo: Bound<u64>, hi: Bound<u64>) -> bool
    ensures { result ≡ any_whole lo hi }
{
    match lo {
        Bound::Included(x) => admits_address(hi, x),
        Bound::Excluded(x) => admits_after(hi, x),
        Bound::Unbounded => admits_address(hi, 0),
    }
}
