// The search for the first entry in tree order that intersects a range. It follows one way down the
// tree, so it visits at most as many nodes as the tree is high. At each node it also reads the hull
// of the left child. A hull is the least interval that contains the intervals of a subtree.
#![tactic(auto)]

ghost use Rattle.std.specs.Prelude.{◌≡◌, ◌&&◌, ltb};
ghost use Rattle.words.specs.Layouts.{as_eight, HoldsIn};
ghost use Rattle.words.specs.Intervals.{passed, admits};
ghost use Rattle.words.specs.Nodes.{start};
ghost use Rattle.first_rule.specs.First.{past, first_past_lem, first_in};

use words::interval::{Bound, Span, admits_start, passed_by};
use words::ix::{U, slot_at};
use words::node::{child_of, end_of, hull_end_of, start_of};

// Whether some entry behind a link goes past a lower bound.
fn is_past(nodes: &[u64], narrow: bool, count: u64, link: u64, lo: Bound<u64>) -> bool
    requires { HoldsIn narrow nodes.now count }
    ensures { result ≡ past (passed lo) (as_eight narrow nodes.now) count link }
{
    let Some(child) = slot_at(link, count) else {
        return false;
    };
    passed_by(lo, hull_end_of(nodes, narrow, child))
}

// Returns the first slot in tree order whose entry goes past a lower bound. Returns U, the
// undefined link, if there is none. The search goes left if some entry there goes past the bound.
// Else it ends at the node if its own entry does, and else it goes right.
fn first_past(nodes: &[u64], narrow: bool, count: u64, root: u64, lo: Bound<u64>) -> u64
    requires { HoldsIn narrow nodes.now count }
    ensures { result ≡ first_past_lem (passed lo) (as_eight narrow nodes.now) count 32 root }
{
    let mut at = root;
    for _ in 0..32u64 {
        if count <= at {
            return U;
        }
        let left = child_of(nodes, narrow, at, true);
        if is_past(nodes, narrow, count, left, lo) {
            at = left;
            continue;
        }
        if passed_by(lo, end_of(nodes, narrow, at)) {
            return at;
        }
        at = child_of(nodes, narrow, at, false);
    }
    U
}

// Whether `slot` is below the count and an upper bound admits the start of its entry.
fn is_admitted(nodes: &[u64], narrow: bool, count: u64, slot: u64, hi: Bound<u64>) -> bool
    requires { HoldsIn narrow nodes.now count }
    ensures { result ≡ (ltb slot count && admits hi (start (as_eight narrow nodes.now) slot)) }
{
    if slot < count {
        admits_start(hi, start_of(nodes, narrow, slot))
    } else {
        false
    }
}

// Returns the first slot in tree order whose entry intersects the range, or U if there is none. The
// first entry that goes past the lower bound decides: entries after it start no earlier.
pub fn first_met(nodes: &[u64], narrow: bool, count: u64, root: u64, range: Span) -> u64
    requires { HoldsIn narrow nodes.now count }
    ensures { result ≡ first_in range (as_eight narrow nodes.now) count root }
{
    let lo = range.lo;
    let hi = range.hi;
    let slot = first_past(nodes, narrow, count, root, lo);
    if is_admitted(nodes, narrow, count, slot, hi) {
        slot
    } else {
        U
    }
}
