// The fast lookup: no cursor and no stack. It goes down by recursion, and tests both ends of a
// child's hull before it enters the child. The hull of a node is the least interval that contains
// the intervals of its subtree. The lookup ends on any words: it goes down at most 32 nodes. In a
// store that passes the check of crate audit no way down is longer, so that number never decides
// there.
#![tactic(auto)]

ghost use Rattle.std.specs.Prelude.{◌≡◌, true, false, [], ◌∷◌, ◌+◌, ◌<◌, length, set};
ghost use Rattle.std.proofs.lemmas.List.Edits.{sets};
ghost use Rattle.words.specs.Layouts.{as_eight, HoldsIn};
ghost use Rattle.iter.specs.Lists.{when};
ghost use Rattle.iter.specs.declared.rules.Query.TheVariants.{Overlap, Exact};
ghost use Rattle.fast_rule.specs.Fast.{fast_hits, fitted};
ghost use Rattle.fast.specs.Numbers.{last, no_end_lem, no_start, least_end_lem, last_start_lem, between};
ghost use Rattle.fast.specs.Answers.{tally, Found, Room, Left, Down};

use iter::ranges::by_rule;
use iter::rules::{Lookup, Query, find_index};
use plain::Tally;
use words::interval::{Bound, Interval, Span};
use words::ix::slot_at;
use words::node::{child_of, end_of, hull_end_of, hull_start_of, start_of};

// The greatest number.
const LAST: u64 = 18446744073709551615;

// The numbers before the first node.
const NOTHING: Tally = Tally {
    hits: 0,
    entered: 0,
};

// A range becomes two numbers before the way down, so that each test there is two comparisons.
// Whether no number goes past the lower bound.
fn has_no_end(lo: Bound<u64>) -> bool
    ensures { result ≡ no_end_lem lo }
{
    match lo {
        Bound::Included(x) => x == LAST,
        Bound::Excluded(x) => x == LAST,
        Bound::Unbounded => false,
    }
}

// Whether the upper bound admits no number.
fn has_no_start(hi: Bound<u64>) -> bool
    ensures { result ≡ no_start hi }
{
    match hi {
        Bound::Included(_) => false,
        Bound::Excluded(y) => y == 0,
        Bound::Unbounded => false,
    }
}

// Returns the least number that goes past the lower bound.
fn least_end(lo: Bound<u64>) -> u64
    requires { no_end_lem lo ≡ false }
    ensures { result ≡ least_end_lem lo }
{
    match lo {
        Bound::Included(x) => x + 1,
        Bound::Excluded(x) => x + 1,
        Bound::Unbounded => 0,
    }
}

// Returns the greatest number that the upper bound admits.
fn last_start(hi: Bound<u64>) -> u64
    requires { no_start hi ≡ false }
    ensures { result ≡ last_start_lem hi }
{
    match hi {
        Bound::Included(y) => y,
        Bound::Excluded(y) => y - 1,
        Bound::Unbounded => LAST,
    }
}

// A range by two numbers: an entry is a hit if it ends at `low` or later and starts at `high` or
// earlier.
#[derive(Clone, Copy)]
pub struct Window {
    pub low: u64,
    pub high: u64,
}

impl Lookup for Window {
    ghost rules = { λ window words count. between words count window.low window.high };

    // Whether the child of a slot on a side is entered: it exists, and its hull ends at `low` or
    // later and starts at `high` or earlier.
    fn goes(self, nodes: &[u64], narrow: bool, count: u64, index: u64, left_side: bool) -> bool {
        let Some(child) = slot_at(child_of(nodes, narrow, index, left_side), count) else {
            return false;
        };
        (self.low <= hull_end_of(nodes, narrow, child))
            & (hull_start_of(nodes, narrow, child) <= self.high)
    }

    // Whether the entry of a slot is a hit.
    fn seeks(self, nodes: &[u64], narrow: bool, _count: u64, index: u64) -> bool {
        (self.low <= end_of(nodes, narrow, index)) & (start_of(nodes, narrow, index) <= self.high)
    }
}

// Writes a slot to a place of the output, if the output has that place.
fn write_at(out: &mut [u64], place: u64, slot: u64)
    ensures { out.new ≡ set out.old place slot }
{
    if place < out.len() as u64 {
        out[place as usize] = slot;
    }
}

// Writes `slot`, if it is a hit, after the `hits` found so far. Returns how many hits are found
// then.
fn note(out: &mut [u64], hits: u64, slot: u64, hit: bool) -> u64
    requires { hits < last }
    ensures { (result ≡ hits + length (when hit (slot ∷ []))) × (out.new ≡ sets out.old hits (when hit (slot ∷ []))) }
{
    if hit {
        write_at(out, hits, slot);
        hits + 1
    } else {
        hits
    }
}

// Finds the hits on the left of a slot, if the left child is entered. `before` has the numbers so
// far. Returns the numbers after it.
#[cycle(find_down_find_left)]
fn find_left<T: Lookup>(
    nodes: &[u64],
    narrow: bool,
    count: u64,
    lookup: T,
    slot: u64,
    height: u64,
    out: &mut [u64],
    before: Tally,
) -> Tally
    requires { HoldsIn narrow nodes.now count × (slot < count) × Room before.hits before.entered height }
    ensures { Left (as_eight narrow nodes.now) (T.rules lookup (as_eight narrow nodes.now) count) height slot before.hits before.entered result out.old out.new }
{
    if lookup.goes(nodes, narrow, count, slot, true) {
        let child = child_of(nodes, narrow, slot, true);
        find_down(nodes, narrow, count, lookup, child, height, out, before)
    } else {
        before
    }
}

// Finds the hits from a slot down, with at most `height` nodes on a way: those on its left, then
// the slot itself, then those on its right. The right child is the next turn of the loop.
#[cycle(find_down_find_left)]
fn find_down<T: Lookup>(
    nodes: &[u64],
    narrow: bool,
    count: u64,
    lookup: T,
    slot: u64,
    height: u64,
    out: &mut [u64],
    before: Tally,
) -> Tally
    requires { HoldsIn narrow nodes.now count × (slot < count) × Room before.hits before.entered height }
    ensures { Down (as_eight narrow nodes.now) (T.rules lookup (as_eight narrow nodes.now) count) height slot before.hits before.entered result out.old out.new }
{
    let mut at = slot;
    let mut tally = before;
    for left in (0..height).rev() {
        tally.entered += 1;
        tally = find_left(nodes, narrow, count, lookup, at, left, out, tally);
        tally.hits = note(out, tally.hits, at, lookup.seeks(nodes, narrow, count, at));
        if !lookup.goes(nodes, narrow, count, at, false) {
            return tally;
        }
        at = child_of(nodes, narrow, at, false);
    }
    tally
}

// Finds the hits of a range. If no number goes past its lower bound, or its upper bound admits
// none, nothing below the root is entered.
fn find_overlap(
    nodes: &[u64],
    narrow: bool,
    count: u64,
    root: u64,
    range: Span,
    out: &mut [u64],
) -> Tally
    requires { HoldsIn narrow nodes.now count }
    ensures { Found (as_eight narrow nodes.now) count (Overlap range) root result out.old out.new }
{
    let Some(top) = slot_at(root, count) else {
        return NOTHING;
    };
    let lo = range.lo;
    let hi = range.hi;
    if has_no_end(lo) | has_no_start(hi) {
        return Tally {
            hits: 0,
            entered: 1,
        };
    }
    let window = Window {
        low: least_end(lo),
        high: last_start(hi),
    };
    find_down(nodes, narrow, count, window, top, 32, out, NOTHING)
}

// Finds the hits of an interval, from the highest equal node down.
fn find_exact(
    nodes: &[u64],
    narrow: bool,
    count: u64,
    root: u64,
    x: Interval,
    out: &mut [u64],
) -> Tally
    requires { HoldsIn narrow nodes.now count }
    ensures { Found (as_eight narrow nodes.now) count (Exact x) root result out.old out.new }
{
    let Some(top) = slot_at(find_index(nodes, narrow, count, x, root), count) else {
        return NOTHING;
    };
    find_down(nodes, narrow, count, x, top, 32, out, NOTHING)
}

// Writes the slots of the entries that the query asks for, in tree order, as many as the output has
// places for. Returns how many there are, and how many nodes were entered.
pub fn find_all(
    nodes: &[u64],
    narrow: bool,
    count: u64,
    root: u64,
    query: Query,
    out: &mut [u64],
) -> Tally
    requires { HoldsIn narrow nodes.now count }
    ensures { (result ≡ tally (as_eight narrow nodes.now) count query root)
        × (out.new ≡ fitted (fast_hits (as_eight narrow nodes.now) count query root) out.old) }
{
    match query {
        Query::Overlap(range) => find_overlap(nodes, narrow, count, root, range, out),
        Query::Ruled(rule, range) => find_overlap(
            nodes,
            narrow,
            count,
            root,
            by_rule(rule, range),
            out,
        ),
        Query::Exact(x) => find_exact(nodes, narrow, count, root, x, out),
    }
}
