// The rules of a walk: which children it visits, and which entries it looks for.
ghost use Rattle.std.specs.Prelude.{◌≡◌, true, false, List, ℕ, ◌<◌};
ghost use Rattle.words.specs.Layouts.{as_eight, HoldsIn, HasIn};
ghost use Rattle.words.specs.Nodes.{kid};
ghost use Rattle.iter.specs.Walk.{Rules};
ghost use Rattle.iter.specs.Overlap.{should_go_left_lem, should_go_right_lem};
ghost use Rattle.iter.specs.Exact.{should_go_exact, exact, find_from};
ghost use Rattle.iter.specs.Limits.{span_of, tests_of, limited};
ghost use Rattle.iter.specs.Queries.{rules};

use crate::limits::Limits;
use crate::ranges::by_rule;
use words::interval::{Interval, Span};
use words::ix::{U, slot_at};
use words::node::{child_of, end_of, hull_at, hull_end_of, hull_start_of, interval_of, start_of};

// What is looked for: the entries that intersect a range by rule 1, those that intersect it by the
// rule of a number (ranges.rt), or those equal to an interval.
#[derive(Clone, Copy)]
pub enum Query {
    Overlap(Span),
    Ruled(u64, Span),
    Exact(Interval),
}

// A query with its range as plain numbers. A lookup has one made of its query before its first
// move.
#[derive(Clone, Copy)]
pub enum Tests {
    Within(Limits),
    Equal(Interval),
}

// What a walk goes by. A function that walks is generic over this, so it is compiled once for each
// kind of lookup, and no kind is asked for on the way.
pub trait Lookup: Copy {
    ghost rules: { Self → List ℕ → ℕ → Rules };

    // Whether the walk goes to the left child of the slot `index`, or to the right one if
    // `left_side` is false.
    fn goes(self, nodes: &[u64], narrow: bool, count: u64, index: u64, left_side: bool) -> bool
        requires { HoldsIn narrow nodes.now count × (index < count) }
        ensures { (result ≡ (rules self (as_eight narrow nodes.now) count).go left_side index)
            × (result ≡ true → kid (as_eight narrow nodes.now) left_side index < count) };

    // Whether the entry of the slot `index` is looked for.
    fn seeks(self, nodes: &[u64], narrow: bool, count: u64, index: u64) -> bool
        requires { HasIn narrow nodes.now index }
        ensures { result ≡ (rules self (as_eight narrow nodes.now) count).match index };
}

impl Tests {
    pub fn new(query: Query) -> Tests
        ensures { result ≡ tests_of query }
    {
        match query {
            Query::Overlap(range) => Tests::Within(Limits::new(range, range)),
            Query::Ruled(rule, range) => Tests::Within(Limits::new(range, by_rule(rule, range))),
            Query::Exact(x) => Tests::Equal(x),
        }
    }
}

// Whether the walk goes left: an entry there may end at the lower bound or past it.
fn should_go_left(nodes: &[u64], narrow: bool, count: u64, index: u64, limits: Limits) -> bool
    requires { HoldsIn narrow nodes.now count × (index < count) }
    ensures { result ≡ should_go_left_lem (as_eight narrow nodes.now) count (span_of limits).lo index }
{
    let Some(left) = slot_at(child_of(nodes, narrow, index, true), count) else {
        return false;
    };
    limits.reached_by(hull_end_of(nodes, narrow, left))
}

// Whether the walk goes right: the upper bound admits the least start there.
fn should_go_right(nodes: &[u64], narrow: bool, count: u64, index: u64, limits: Limits) -> bool
    requires { HoldsIn narrow nodes.now count × (index < count) }
    ensures { result ≡ should_go_right_lem (as_eight narrow nodes.now) count (span_of limits).hi index }
{
    let Some(right) = slot_at(child_of(nodes, narrow, index, false), count) else {
        return false;
    };
    limits.admits_start(hull_start_of(nodes, narrow, right))
}

fn should_go_left_exact(
    nodes: &[u64],
    narrow: bool,
    count: u64,
    index: u64,
    query: Interval,
) -> bool
    requires { HoldsIn narrow nodes.now count × (index < count) }
    ensures { result ≡ should_go_exact (as_eight narrow nodes.now) count query true index }
{
    let Some(left) = slot_at(child_of(nodes, narrow, index, true), count) else {
        return false;
    };
    (query <= interval_of(nodes, narrow, index)) & hull_at(nodes, narrow, left).contains(query)
}

fn should_go_right_exact(
    nodes: &[u64],
    narrow: bool,
    count: u64,
    index: u64,
    query: Interval,
) -> bool
    requires { HoldsIn narrow nodes.now count × (index < count) }
    ensures { result ≡ should_go_exact (as_eight narrow nodes.now) count query false index }
{
    let Some(right) = slot_at(child_of(nodes, narrow, index, false), count) else {
        return false;
    };
    (interval_of(nodes, narrow, index) <= query) & hull_at(nodes, narrow, right).contains(query)
}

impl Lookup for Limits {
    ghost rules = { λ limits words count. limited words count limits };

    fn goes(self, nodes: &[u64], narrow: bool, count: u64, index: u64, left_side: bool) -> bool {
        if left_side {
            should_go_left(nodes, narrow, count, index, self)
        } else {
            should_go_right(nodes, narrow, count, index, self)
        }
    }

    fn seeks(self, nodes: &[u64], narrow: bool, _count: u64, index: u64) -> bool {
        self.passed_by(end_of(nodes, narrow, index))
            & self.admits_start(start_of(nodes, narrow, index))
    }
}

impl Lookup for Interval {
    ghost rules = { λ query words count. exact words count query };

    fn goes(self, nodes: &[u64], narrow: bool, count: u64, index: u64, left_side: bool) -> bool {
        if left_side {
            should_go_left_exact(nodes, narrow, count, index, self)
        } else {
            should_go_right_exact(nodes, narrow, count, index, self)
        }
    }

    fn seeks(self, nodes: &[u64], narrow: bool, _count: u64, index: u64) -> bool {
        interval_of(nodes, narrow, index) == self
    }
}

// The same by a query.
pub fn matches(nodes: &[u64], narrow: bool, count: u64, query: Query, index: u64) -> bool
    requires { HoldsIn narrow nodes.now count × (index < count) }
    ensures { result ≡ (rules (as_eight narrow nodes.now) count query).match index }
{
    let own = interval_of(nodes, narrow, index);
    match query {
        Query::Overlap(range) => own.intersects_range(range),
        Query::Ruled(rule, range) => own.intersects_range(by_rule(rule, range)),
        Query::Exact(x) => own == x,
    }
}

// Returns the slot where an exact lookup starts: the highest node equal to the query. Returns U,
// the undefined link, if there is none at most 32 nodes down.
pub fn find_index(nodes: &[u64], narrow: bool, count: u64, query: Interval, root: u64) -> u64
    requires { HoldsIn narrow nodes.now count }
    ensures { result ≡ find_from (as_eight narrow nodes.now) count query root }
{
    let mut at = root;
    for _ in 0..32u64 {
        if count <= at {
            return U;
        }
        let own = interval_of(nodes, narrow, at);
        if own == query {
            return at;
        }
        at = child_of(nodes, narrow, at, query <= own);
    }
    U
}
