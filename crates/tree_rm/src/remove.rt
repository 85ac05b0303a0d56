// The removal of one entry.
ghost use Rattle.std.specs.Prelude.{◌≡◌, true, false, ◌+◌, ◌-◌, ◌<◌, ◌≤◌};
ghost use Rattle.words.specs.Layouts.{as_eight, HoldsIn, HasIn};
ghost use Rattle.words.specs.Nodes.{par, value, swap, HoldsBits};
ghost use Rattle.tree_rm_rule.specs.Pairs.{emptied};
ghost use Rattle.tree_rm_rule.specs.Remove.{vacated, exchanged, child, restructure, handed, above, cut_words, cut_root, copied, relinked, cleared, swap_remove_lem, finish, remove_from_lem, remove_rule};
ghost use Rattle.tree_edit.specs.Store.{store};
ghost use Rattle.tree_edit.specs.Reach.{changes};
ghost use Rattle.tree_rm_rule.specs.Reach.{cut_hulls, vacate_hulls, remove_hulls_from, remove_hulls};
ghost use Rattle.tree_rm.specs.Answers.{removal};

use bitvec::colours::copy_colour;
use tree_links::{adopt_child, fix_intervals_up, leftmost_from, remove_child, replace_child_at};
use tree_rm_pairs::{after_move, moved_pairs};
use tree_rm_repair::restructure_rm;
use words::interval::Interval;
use words::ix::{U, slot_at};
use words::node::{Entry, child_of, entry_of, hull_at, parent_of, put_node, swap_with, value_of};
use words::pair::Pairs;

// Swaps the values and the intervals of nodes `i` and `j`.
fn swap_nodes(nodes: &mut [u64], narrow: bool, i: u64, j: u64)
    requires { HasIn narrow nodes.old i × HasIn narrow nodes.old j }
    ensures { as_eight narrow nodes.new ≡ swap (as_eight narrow nodes.old) i j }
{
    swap_with(nodes, narrow, i, j);
}

// Copies all words of slot `from` to slot `to`.
pub fn copy_node(nodes: &mut [u64], narrow: bool, from: u64, to: u64)
    requires { HasIn narrow nodes.old from × HasIn narrow nodes.old to }
    ensures { as_eight narrow nodes.new ≡ copied (as_eight narrow nodes.old) from to }
{
    let left = child_of(nodes, narrow, from, true);
    let right = child_of(nodes, narrow, from, false);
    let up = parent_of(nodes, narrow, from);
    put_node(
        nodes,
        narrow,
        to,
        entry_of(nodes, narrow, from),
        hull_at(nodes, narrow, from),
        left,
        right,
        up,
    );
}

// Clears a slot that has no entry. Its links become U, the undefined link, because 0 would be a
// slot.
fn clear_node(nodes: &mut [u64], narrow: bool, ix: u64)
    requires { HasIn narrow nodes.old ix }
    ensures { as_eight narrow nodes.new ≡ cleared (as_eight narrow nodes.old) ix }
{
    let nothing = Entry {
        start: 0,
        end: 0,
        value: 0,
    };
    let hull = Interval { start: 0, end: 0 };
    put_node(nodes, narrow, ix, nothing, hull, U, U, U);
}

// Moves the node of slot `from` to slot `to`. Its children's and its parent's links lead there
// then.
fn move_node(nodes: &mut [u64], narrow: bool, count: u64, from: u64, to: u64)
    requires { HoldsIn narrow nodes.old count × (from < count) × (to < count) }
    ensures { as_eight narrow nodes.new ≡ relinked count (as_eight narrow nodes.old) from to }
{
    let left = child_of(nodes, narrow, from, true);
    let right = child_of(nodes, narrow, from, false);
    let up = parent_of(nodes, narrow, from);
    copy_node(nodes, narrow, from, to);
    adopt_child(nodes, narrow, count, left, to);
    adopt_child(nodes, narrow, count, right, to);
    replace_child_at(nodes, narrow, count, up, from, to);
}

// Removes slot ix: moves the last slot into it, and updates all links that lead to the moved node.
// Returns the root. The last slot's links become U and its other words 0. Its colour bit stays
// unchanged.
fn swap_remove(
    nodes: &mut [u64],
    narrow: bool,
    colours: &mut [u8],
    count: u64,
    root: u64,
    ix: u64,
) -> u64
    requires { HoldsIn narrow nodes.old count × HoldsBits colours.old count × (ix < count) }
    ensures { store (as_eight narrow nodes.new) colours.new result ≡ swap_remove_lem count (as_eight narrow nodes.old) colours.old root (count - 1) ix }
{
    let last = count - 1;
    if ix == last {
        clear_node(nodes, narrow, last);
        return root;
    }
    copy_colour(colours, last, ix);
    move_node(nodes, narrow, count, last, ix);
    clear_node(nodes, narrow, last);
    after_move(last, ix, root)
}

// Returns the slot to vacate for slot ix: the minimal node in the right subtree if there is one,
// else ix. Document 01 keeps the doubled test of the right link in src/tree_rm.rs. The theorem
// `harmless` of tree_rm_rule says that a test of both links gives the same store.
fn slot_to_vacate(nodes: &[u64], narrow: bool, count: u64, ix: u64) -> u64
    requires { HoldsIn narrow nodes.now count × (ix < count) }
    ensures { (result ≡ vacated count (as_eight narrow nodes.now) ix) × (result < count) }
{
    let right = child_of(nodes, narrow, ix, false);
    if (count <= right) | (count <= right) {
        ix
    } else {
        leftmost_from(nodes, narrow, count, right, 32)
    }
}

// Exchanges the intervals and the values of two slots, unless they are the same slot.
fn exchange(nodes: &mut [u64], narrow: bool, ix: u64, rm: u64)
    requires { HasIn narrow nodes.old ix × HasIn narrow nodes.old rm }
    ensures { as_eight narrow nodes.new ≡ exchanged (as_eight narrow nodes.old) ix rm }
{
    if rm != ix {
        swap_nodes(nodes, narrow, ix, rm);
    }
}

// Returns the smaller of the two child links.
fn least_child(nodes: &[u64], narrow: bool, rm: u64) -> u64
    requires { HasIn narrow nodes.now rm }
    ensures { result ≡ child (as_eight narrow nodes.now) rm }
{
    child_of(nodes, narrow, rm, true).min(child_of(nodes, narrow, rm, false))
}

// The slot that is vacated, the root, and how many hulls changed. A hull is the least interval that
// contains the intervals of a subtree.
#[derive(Clone, Copy)]
struct Cut {
    slot: u64,
    root: u64,
    reach: u64,
}

// The removed node has no child: cuts off the node.
fn cut_leaf(nodes: &mut [u64], narrow: bool, count: u64, root: u64, rm: u64) -> Cut
    requires { HoldsIn narrow nodes.old count × (rm < count) }
    ensures { (result.slot ≡ rm) × (result.root ≡ cut_root count root (par (as_eight narrow nodes.old) rm)) × (as_eight narrow nodes.new ≡ cut_words count (as_eight narrow nodes.old) (par (as_eight narrow nodes.old) rm) rm)
        × (result.reach ≡ changes count (cut_hulls count (as_eight narrow nodes.old) (par (as_eight narrow nodes.old) rm) rm)) }
{
    let Some(parent_ix) = slot_at(parent_of(nodes, narrow, rm), count) else {
        return Cut {
            slot: rm,
            root: U,
            reach: 0,
        };
    };
    remove_child(nodes, narrow, parent_ix, rm);
    let reach = fix_intervals_up(nodes, narrow, count, parent_ix);
    Cut {
        slot: rm,
        root,
        reach,
    }
}

// Vacates slot rm. If there is a child, it exchanges interval and value with rm and is cut off
// instead.
fn cut_off(nodes: &mut [u64], narrow: bool, count: u64, root: u64, rm: u64, child: u64) -> Cut
    requires { HoldsIn narrow nodes.old count × (rm < count) }
    ensures { (result.slot ≡ emptied count rm child) × (result.slot < count) × (result.root ≡ cut_root count root (above count (as_eight narrow nodes.old) rm child)) × (as_eight narrow nodes.new ≡ cut_words count (handed count (as_eight narrow nodes.old) rm child) (above count (as_eight narrow nodes.old) rm child) (emptied count rm child))
        × (result.reach ≡ changes count (cut_hulls count (handed count (as_eight narrow nodes.old) rm child) (above count (as_eight narrow nodes.old) rm child) (emptied count rm child))) }
{
    let Some(child_ix) = slot_at(child, count) else {
        return cut_leaf(nodes, narrow, count, root, rm);
    };
    swap_nodes(nodes, narrow, rm, child_ix);
    remove_child(nodes, narrow, rm, child_ix);
    let reach = fix_intervals_up(nodes, narrow, count, rm);
    Cut {
        slot: child_ix,
        root,
        reach,
    }
}

// The removed value, the root, the moved pairs, and how many hulls changed.
#[derive(Clone, Copy)]
pub struct Removed {
    pub value: u64,
    pub root: u64,
    pub pairs: Pairs,
    pub reach: u64,
}

// Vacates slot rm, whose child link is `child`, for the entry of slot ix. `before` hulls changed
// already.
fn finish_rm(
    nodes: &mut [u64],
    narrow: bool,
    colours: &mut [u8],
    count: u64,
    root: u64,
    ix: u64,
    rm: u64,
    child: u64,
    before: u64,
) -> Removed
    requires { HoldsIn narrow nodes.old count × HoldsBits colours.old count × (rm < count) × (before ≤ 144) }
    ensures { (removal result (as_eight narrow nodes.new) colours.new ≡ finish (store (as_eight narrow nodes.old) colours.old root) count ix rm child)
        × (result.reach ≡ before + changes count (cut_hulls count (handed count (as_eight narrow nodes.old) rm child) (above count (as_eight narrow nodes.old) rm child) (emptied count rm child))) }
{
    let cut = cut_off(nodes, narrow, count, root, rm, child);
    let value = value_of(nodes, narrow, cut.slot);
    let top = swap_remove(nodes, narrow, colours, count, cut.root, cut.slot);
    let pairs = moved_pairs(count, count - 1, ix, rm, child);
    Removed {
        value,
        root: top,
        pairs,
        reach: before + cut.reach,
    }
}

// Repairs the tree before the cut, then vacates slot rm, whose child link is `child`, for the entry
// of slot ix.
fn vacate(
    nodes: &mut [u64],
    narrow: bool,
    colours: &mut [u8],
    count: u64,
    root: u64,
    ix: u64,
    rm: u64,
    child: u64,
) -> Removed
    requires { HoldsIn narrow nodes.old count × HoldsBits colours.old count × (rm < count) }
    ensures { (removal result (as_eight narrow nodes.new) colours.new ≡ finish (restructure count (as_eight narrow nodes.old) colours.old root rm child) count ix rm child)
        × (result.reach ≡ changes count (vacate_hulls count (as_eight narrow nodes.old) colours.old root rm child)) }
{
    let repaired = restructure_rm(nodes, narrow, colours, count, root, rm, child);
    finish_rm(
        nodes,
        narrow,
        colours,
        count,
        repaired.root,
        ix,
        rm,
        child,
        repaired.reach,
    )
}

// Removes the entry of slot ix, and vacates slot rm for it.
fn remove_from(
    nodes: &mut [u64],
    narrow: bool,
    colours: &mut [u8],
    count: u64,
    root: u64,
    ix: u64,
    rm: u64,
) -> Removed
    requires { HoldsIn narrow nodes.old count × HoldsBits colours.old count × (ix < count) × (rm < count) }
    ensures { (removal result (as_eight narrow nodes.new) colours.new ≡ remove_from_lem (as_eight narrow nodes.old) colours.old count root ix rm)
        × (result.reach ≡ changes count (remove_hulls_from (as_eight narrow nodes.old) colours.old count root ix rm)) }
{
    exchange(nodes, narrow, ix, rm);
    let child = least_child(nodes, narrow, rm);
    vacate(nodes, narrow, colours, count, root, ix, rm, child)
}

// Removes the entry of slot ix. The count is one less then.
pub fn remove_at(
    nodes: &mut [u64],
    narrow: bool,
    colours: &mut [u8],
    count: u64,
    root: u64,
    ix: u64,
) -> Removed
    requires { HoldsIn narrow nodes.old count × HoldsBits colours.old count × (ix < count) }
    ensures { (removal result (as_eight narrow nodes.new) colours.new ≡ remove_rule (as_eight narrow nodes.old) colours.old count root ix)
        × (result.reach ≡ changes count (remove_hulls (as_eight narrow nodes.old) colours.old count root ix)) }
{
    let rm = slot_to_vacate(nodes, narrow, count, ix);
    remove_from(nodes, narrow, colours, count, root, ix, rm)
}
