// The way down to the place of a new entry.
ghost use Rattle.std.specs.Prelude.{◌≡◌, true, ◌<◌};
ghost use Rattle.words.specs.Layouts.{as_eight, up_fits_lem, HoldsIn, HasIn};
ghost use Rattle.words.specs.Nodes.{kid};
ghost use Rattle.tree_in_rule.specs.Descent.{goes_left_lem, descend, under};

use words::interval::Interval;
use words::ix::{U, slot_at};
use words::node::{child_of, interval_of};

// Whether the new interval is less than that of slot k. An equal one goes right.
pub(crate) fn goes_left(nodes: &[u64], narrow: bool, interval: Interval, k: u64) -> bool
    requires { HasIn narrow nodes.now k }
    ensures { result ≡ goes_left_lem (as_eight narrow nodes.now) interval k }
{
    interval < interval_of(nodes, narrow, k)
}

// Returns the link word of slot k on the side that the new interval goes to.
fn next_down(nodes: &[u64], narrow: bool, interval: Interval, k: u64) -> u64
    requires { HasIn narrow nodes.now k }
    ensures { result ≡ kid (as_eight narrow nodes.now) (goes_left_lem (as_eight narrow nodes.now) interval k) k }
{
    child_of(nodes, narrow, k, goes_left(nodes, narrow, interval, k))
}

// Goes down from `top`, at most 32 links. Returns the last slot. In a store that passes the check
// of crate audit that slot has no child on the side that the new interval goes to.
fn last_down(nodes: &[u64], narrow: bool, count: u64, top: u64, interval: Interval) -> u64
    requires { HoldsIn narrow nodes.now count × (top < count) }
    ensures { (result ≡ descend count 32 (as_eight narrow nodes.now) interval top) × (result < count) }
{
    let mut current = top;
    for _ in 0..32_u64 {
        let Some(child) = slot_at(next_down(nodes, narrow, interval, current), count) else {
            return current;
        };
        current = child;
    }
    current
}

// Returns the slot that the new node hangs under, or U, the undefined link, if the map is empty.
pub(crate) fn insert_inner(
    nodes: &[u64],
    narrow: bool,
    count: u64,
    root: u64,
    interval: Interval,
) -> u64
    requires { HoldsIn narrow nodes.now count }
    ensures { (result ≡ under count (as_eight narrow nodes.now) root interval) × (up_fits_lem narrow result ≡ true) }
{
    let Some(top) = slot_at(root, count) else {
        return U;
    };
    last_down(nodes, narrow, count, top, interval)
}
