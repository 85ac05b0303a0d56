// A range from the kinds and the values of its two bounds.
ghost use Rattle.std.specs.Prelude.{◌≡◌, cond, Some, None};
ghost use Rattle.iset_c.specs.Ranges.{range_of, span_of, kinds};

use iset::{Query, Span};
use words::interval::bound_of_kind;

// Whether both numbers are kinds of a bound: 0 Included, 1 Excluded, 2 Unbounded.
#[tactic(auto, unfolding(crate::specs::Ranges::kinds))]
pub fn are_kinds(lo_kind: u64, hi_kind: u64) -> bool
    ensures { result ≡ kinds lo_kind hi_kind }
{
    (lo_kind <= 2) & (hi_kind <= 2)
}

pub fn span(lo_kind: u64, lo: u64, hi_kind: u64, hi: u64) -> Span
    ensures { result ≡ span_of lo_kind lo hi_kind hi }
{
    Span {
        lo: bound_of_kind(lo_kind, lo),
        hi: bound_of_kind(hi_kind, hi),
    }
}

// The entries that intersect it by rule 1.
pub fn range(lo_kind: u64, lo: u64, hi_kind: u64, hi: u64) -> Query
    ensures { result ≡ range_of lo_kind lo hi_kind hi }
{
    Query::Overlap(span(lo_kind, lo, hi_kind, hi))
}

// The range, if both numbers are kinds of a bound.
pub fn known_span(lo_kind: u64, lo: u64, hi_kind: u64, hi: u64) -> Option<Span>
    ensures { result ≡ cond (kinds lo_kind hi_kind) (Some (span_of lo_kind lo hi_kind hi)) None }
{
    if are_kinds(lo_kind, hi_kind) {
        Some(span(lo_kind, lo, hi_kind, hi))
    } else {
        None
    }
}

// The entries that intersect it by rule 1, if both numbers are kinds of a bound.
pub fn known_range(lo_kind: u64, lo: u64, hi_kind: u64, hi: u64) -> Option<Query>
    ensures { result ≡ cond (kinds lo_kind hi_kind) (Some (range_of lo_kind lo hi_kind hi)) None }
{
    if are_kinds(lo_kind, hi_kind) {
        Some(range(lo_kind, lo, hi_kind, hi))
    } else {
        None
    }
}
