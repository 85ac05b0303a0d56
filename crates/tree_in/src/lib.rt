// The insertion of one entry: the Rust crate's `force_insert` and what it calls. Each function
// works on any words. In a store that passes the check of crate audit a way down is never longer
// than 32.
#![tactic(auto)]

pub mod descent;
pub mod repair;

ghost use Rattle.std.specs.Prelude.{◌≡◌, true, ◌+◌};
ghost use Rattle.words.specs.Layouts.{as_eight, up_fits_lem, HasIn};
ghost use Rattle.tree_edit.specs.Store.{store};
ghost use Rattle.tree_edit.specs.Reach.{changes};
ghost use Rattle.tree_in_rule.specs.Insert.{own, hung_node, hung_words, hung_root, hung, insert_at_lem, insert_rule};
ghost use Rattle.tree_in_rule.specs.Reach.{insert_at_hulls, insert_hulls};
ghost use Rattle.words.specs.Nodes.{HasBit};

use crate::descent::{goes_left, insert_inner};
use crate::repair::insert_repair;
use bitvec::colours::set_red;
use tree_links::{Repaired, fix_intervals_up};
use words::interval::Interval;
use words::ix::{U, slot_at};
use words::node::{Entry, put_child, put_node};

// Returns the interval of an entry.
fn interval_in(entry: Entry) -> Interval
    ensures { result ≡ own entry }
{
    Interval {
        start: entry.start,
        end: entry.end,
    }
}

// Writes a new node to slot `index`, below the link word `parent`. Its hull is its own interval at
// first. The hull of a node is the least interval that contains the intervals of its subtree.
fn new_node(nodes: &mut [u64], narrow: bool, index: u64, entry: Entry, parent: u64)
    requires { HasIn narrow nodes.old index × (up_fits_lem narrow parent ≡ true) }
    ensures { as_eight narrow nodes.new ≡ hung_node (as_eight narrow nodes.old) index entry parent }
{
    let interval = interval_in(entry);
    put_node(nodes, narrow, index, entry, interval, U, U, parent);
}

// Writes the new node to slot `count`, and a link from its parent if there is one. Returns the
// root.
fn hang_node(
    nodes: &mut [u64],
    narrow: bool,
    count: u64,
    root: u64,
    entry: Entry,
    parent: u64,
) -> u64
    requires { HasIn narrow nodes.old count × (up_fits_lem narrow parent ≡ true) }
    ensures { (result ≡ hung_root count root parent) × (as_eight narrow nodes.new ≡ hung_words (as_eight narrow nodes.old) count entry parent) }
{
    let Some(above) = slot_at(parent, count) else {
        new_node(nodes, narrow, count, entry, parent);
        return count;
    };
    let left_child = goes_left(nodes, narrow, interval_in(entry), above);
    new_node(nodes, narrow, count, entry, parent);
    put_child(nodes, narrow, above, left_child, count);
    root
}

// Hangs the new red node in slot `count` below the link word `parent`. Returns the root.
fn hang_red(
    nodes: &mut [u64],
    narrow: bool,
    colours: &mut [u8],
    count: u64,
    root: u64,
    entry: Entry,
    parent: u64,
) -> u64
    requires { HasIn narrow nodes.old count × HasBit colours.old count × (up_fits_lem narrow parent ≡ true) }
    ensures { store (as_eight narrow nodes.new) colours.new result ≡ hung (as_eight narrow nodes.old) colours.old count root entry parent }
{
    set_red(colours, count);
    hang_node(nodes, narrow, count, root, entry, parent)
}

// Hangs the new node, repairs the tree from it, and then computes its hull and all hulls above it
// anew. Returns the root and how many hulls changed.
fn insert_at(
    nodes: &mut [u64],
    narrow: bool,
    colours: &mut [u8],
    count: u64,
    root: u64,
    entry: Entry,
    parent: u64,
) -> Repaired
    requires { HasIn narrow nodes.old count × HasBit colours.old count × (up_fits_lem narrow parent ≡ true) }
    ensures { (store (as_eight narrow nodes.new) colours.new result.root ≡ insert_at_lem (as_eight narrow nodes.old) colours.old count root entry parent)
        × (result.reach ≡ changes (count + 1) (insert_at_hulls (as_eight narrow nodes.old) colours.old count root entry parent)) }
{
    let top = hang_red(nodes, narrow, colours, count, root, entry, parent);
    let repaired = insert_repair(nodes, narrow, colours, count + 1, top, count);
    let changed = fix_intervals_up(nodes, narrow, count + 1, count);
    Repaired {
        root: repaired.root,
        reach: repaired.reach + changed,
    }
}

// Inserts the new entry in slot `count`. The count is one more then. Returns the root and how many
// hulls changed. Equal intervals are kept.
pub fn force_insert(
    nodes: &mut [u64],
    narrow: bool,
    colours: &mut [u8],
    count: u64,
    root: u64,
    entry: Entry,
) -> Repaired
    requires { HasIn narrow nodes.old count × HasBit colours.old count }
    ensures { (store (as_eight narrow nodes.new) colours.new result.root ≡ insert_rule (as_eight narrow nodes.old) colours.old count root entry)
        × (result.reach ≡ changes (count + 1) (insert_hulls (as_eight narrow nodes.old) colours.old count root entry)) }
{
    let parent = insert_inner(nodes, narrow, count, root, interval_in(entry));
    insert_at(nodes, narrow, colours, count, root, entry, parent)
}
