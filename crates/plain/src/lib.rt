// The plain lookup visits every entry in tree order by links alone, tests each and writes the hits.
// If the query asks for every entry, no entry needs a test. Tree order is the left subtree, then
// the node, then the right subtree. The lookup has no stack and reads no hull, the interval that a
// node keeps for its subtree. It ends on any words: it visits at most `count` entries, with at most
// 33 links between two of them. In a store that passes the check of crate audit no way down or up
// is longer than 32, so neither number decides there.
#![tactic(auto)]

ghost use Rattle.std.specs.Prelude.{◌≡◌, cond, ◌&&◌, ◌+◌, ◌<◌, ◌≤◌, length, set};
ghost use Rattle.words.specs.Layouts.{as_eight, HoldsIn};
ghost use Rattle.iter.specs.Drains.{filled};
ghost use Rattle.iter.specs.Queries.{rules};
ghost use Rattle.tree_edit.specs.Links.{leftmost};
ghost use Rattle.plain_rule.specs.Tour.{ascend, next_of, first_of, plain};
ghost use Rattle.plain.specs.Answers.{unbounded, asks_all, tally};

use iter::rules::{Query, matches};
use tree_links::leftmost_from;
use words::interval::{Bound, Span};
use words::ix::{U, slot_at};
use words::node::{child_of, parent_of};

// What a lookup that finds all hits at once returns: how many hits there are, and how many nodes it
// entered.
#[derive(Clone, Copy)]
pub struct Tally {
    pub hits: u64,
    pub entered: u64,
}

fn is_unbounded(bound: Bound<u64>) -> bool
    ensures { result ≡ unbounded bound }
{
    match bound {
        Bound::Included(_) => false,
        Bound::Excluded(_) => false,
        Bound::Unbounded => true,
    }
}

fn has_no_bound(range: Span) -> bool
    ensures { result ≡ unbounded range.lo && unbounded range.hi }
{
    let lo = range.lo;
    let hi = range.hi;
    is_unbounded(lo) & is_unbounded(hi)
}

// Whether the query asks for every entry. The lookup works this out once, before the first entry.
fn asks_for_all(query: Query) -> bool
    ensures { result ≡ asks_all query }
{
    match query {
        Query::Overlap(range) => has_no_bound(range),
        Query::Ruled(_, range) => has_no_bound(range),
        Query::Exact(_) => false,
    }
}

// Whether the query asks for the entry of a slot. `all` is whether it asks for every entry.
fn is_hit(nodes: &[u64], narrow: bool, count: u64, query: Query, all: bool, slot: u64) -> bool
    requires { HoldsIn narrow nodes.now count × (slot < count) × (all ≡ asks_all query) }
    ensures { result ≡ (rules (as_eight narrow nodes.now) count query).match slot }
{
    if all {
        true
    } else {
        matches(nodes, narrow, count, query, slot)
    }
}

// Returns the leftmost slot from `slot` down. `tree_links::leftmost_from` finds the same by
// recursion. The way to every second entry leads through here, so here it is a loop.
fn lowest_left(nodes: &[u64], narrow: bool, count: u64, slot: u64) -> u64
    requires { HoldsIn narrow nodes.now count × (slot < count) }
    ensures { result ≡ leftmost count 32 (as_eight narrow nodes.now) slot }
{
    let mut at = slot;
    for _ in 0..32u64 {
        let Some(left) = slot_at(child_of(nodes, narrow, at, true), count) else {
            return at;
        };
        at = left;
    }
    at
}

// Returns the first slot above `slot` that has it on its left, at most 32 links up. Returns U, the
// undefined link, if there is none.
fn next_above(nodes: &[u64], narrow: bool, count: u64, slot: u64) -> u64
    requires { HoldsIn narrow nodes.now count × (slot < count) }
    ensures { result ≡ ascend count 32 (as_eight narrow nodes.now) slot }
{
    let mut at = slot;
    for _ in 0..32u64 {
        let Some(parent) = slot_at(parent_of(nodes, narrow, at), count) else {
            return U;
        };
        if child_of(nodes, narrow, parent, true) == at {
            return parent;
        }
        at = parent;
    }
    U
}

// Returns the slot after `slot` in tree order, or U if there is none.
pub fn next_slot(nodes: &[u64], narrow: bool, count: u64, slot: u64) -> u64
    requires { HoldsIn narrow nodes.now count × (slot < count) }
    ensures { result ≡ next_of count (as_eight narrow nodes.now) slot }
{
    let Some(right) = slot_at(child_of(nodes, narrow, slot, false), count) else {
        return next_above(nodes, narrow, count, slot);
    };
    lowest_left(nodes, narrow, count, right)
}

// Returns the first slot in tree order, or U if there is none.
pub fn first_slot(nodes: &[u64], narrow: bool, count: u64, root: u64) -> u64
    requires { HoldsIn narrow nodes.now count }
    ensures { result ≡ first_of count (as_eight narrow nodes.now) root }
{
    let Some(top) = slot_at(root, count) else {
        return U;
    };
    leftmost_from(nodes, narrow, count, top, 32)
}

// Writes `slot`, if it is a hit, after the `hits` written so far. Returns how many hits are written
// then.
fn note(out: &mut [u64], hits: u64, slot: u64, hit: bool) -> u64
    requires { hits < length out.old }
    ensures { (result ≡ cond hit (hits + 1) hits) × (out.new ≡ cond hit (set out.old hits slot) out.old) }
{
    if hit {
        out[hits as usize] = slot;
        hits + 1
    } else {
        hits
    }
}

// Writes the slots of all entries that the query asks for, in tree order.
pub fn scan(
    nodes: &[u64],
    narrow: bool,
    count: u64,
    root: u64,
    query: Query,
    out: &mut [u64],
) -> Tally
    requires { HoldsIn narrow nodes.now count × (count ≤ length out.old) }
    ensures { (result ≡ tally count (as_eight narrow nodes.now) (rules (as_eight narrow nodes.now) count query) root)
        × (out.new ≡ filled (plain count (as_eight narrow nodes.now) (rules (as_eight narrow nodes.now) count query) root) out.old) }
{
    let all = asks_for_all(query);
    let mut at = first_slot(nodes, narrow, count, root);
    let mut hits: u64 = 0;
    for seen in 0..count {
        let Some(slot) = slot_at(at, count) else {
            return Tally {
                hits,
                entered: seen,
            };
        };
        hits = note(
            out,
            hits,
            slot,
            is_hit(nodes, narrow, count, query, all, slot),
        );
        at = next_slot(nodes, narrow, count, slot);
    }
    Tally {
        hits,
        entered: count,
    }
}
