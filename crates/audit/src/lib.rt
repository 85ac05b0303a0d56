// The store check: one pass over the links, on any words.
//
// Its time is linear in the count, on every input. Before the pass continues below a slot, it makes
// two tests. The slot's parent link must name the slot that the pass came from. The slot's two
// child links must differ, unless both are U, the undefined link. So no slot is entered twice, and
// at most two links are followed for each slot entered. Without the first test, two slots of a
// damaged store could lead to the same slot. Without the second, one slot could lead to another
// twice. Each level would then double the calls, up to 2^32 of them. The remaining height, which
// falls from 33, would only make the pass end.
#![tactic(auto)]

ghost use Rattle.std.specs.Prelude.{◌≡◌, true, false, ◌+◌, ◌≤◌, ◌<◌};
ghost use Rattle.words.specs.Layouts.{as_eight, HoldsIn, HasIn};
ghost use Rattle.tree.specs.RedBlack.{black_of};
ghost use Rattle.audit.specs.Survey.{node_at_lem, no_nodes_lem, tied, ordered, hulled, coloured, fits, combined, childless, survey, whole_of};
ghost use Rattle.words.specs.Nodes.{HasBit, HoldsBits, kid, par};

use bitvec::colours::is_red;
use words::interval::Interval;
use words::ix::U;
use words::node::{child_of, hull_at, interval_of, parent_of};

// What the check reads of a slot.
#[derive(Clone, Copy)]
pub struct Node {
    pub interval: Interval,
    pub hull: Interval,
    pub left: u64,
    pub right: u64,
    pub parent: u64,
    pub red: bool,
}

// What the check finds of a subtree.
#[derive(Clone, Copy)]
pub struct Found {
    // every clause of the check holds in the subtree
    pub ok: bool,
    // its number of nodes
    pub size: u64,
    // the number of black nodes on its leftmost path
    pub blacks: u64,
    // its root is red
    pub red: bool,
    // its first interval in tree order
    pub first: Interval,
    // its last interval in tree order
    pub last: Interval,
    // the hull of its root: the least interval that contains the intervals of the subtree
    pub hull: Interval,
}

fn node_at(nodes: &[u64], narrow: bool, colours: &[u8], slot: u64) -> Node
    requires { HasIn narrow nodes.now slot × HasBit colours.now slot }
    ensures { result ≡ node_at_lem (as_eight narrow nodes.now) colours.now slot }
{
    Node {
        interval: interval_of(nodes, narrow, slot),
        hull: hull_at(nodes, narrow, slot),
        left: child_of(nodes, narrow, slot, true),
        right: child_of(nodes, narrow, slot, false),
        parent: parent_of(nodes, narrow, slot),
        red: is_red(colours, slot),
    }
}

// Returns what is found of a subtree without nodes. The interval of the node above is its first
// interval, its last one and its hull. That interval is in order with itself and extends no hull,
// so the node above needs no case for a missing child. A subtree that fails has the same record,
// with `ok` false.
pub fn no_nodes(ok: bool, above: Interval) -> Found
    ensures { result ≡ no_nodes_lem ok above }
{
    Found {
        ok,
        size: 0,
        blacks: 0,
        red: false,
        first: above,
        last: above,
        hull: above,
    }
}

// Whether a slot names its parent, and its two child links differ unless both are U.
pub fn is_tied(x: Node, parent: u64) -> bool
    ensures { result ≡ tied x parent }
{
    (x.parent == parent) & ((x.left != x.right) | (x.left == U))
}

// Whether an interval is proper, and in order with the last one before it and the first one after
// it.
fn is_ordered(own: Interval, last: Interval, first: Interval) -> bool
    ensures { result ≡ ordered own last first }
{
    own.is_proper() & (last <= own) & (own <= first)
}

// Whether a node's hull is the least interval that contains its own interval and its children's
// hulls.
fn is_hulled(x: Node, left: Interval, right: Interval) -> bool
    ensures { result ≡ hulled x left right }
{
    let hull = x.hull;
    let own = x.interval;
    hull == own.extend(left).extend(right)
}

// Whether both subtrees have the same number of blacks, and the node has no red child if it is red.
fn is_coloured(x: Node, l: Found, r: Found) -> bool
    ensures { result ≡ coloured x l r }
{
    (l.blacks == r.blacks) & (!x.red | !(l.red | r.red))
}

// Whether a node passes, given what was found of its subtrees.
fn is_fit(x: Node, l: Found, r: Found) -> bool
    ensures { result ≡ fits x l r }
{
    let order = is_ordered(x.interval, l.last, r.first);
    let hull = is_hulled(x, l.hull, r.hull);
    l.ok & r.ok & (order & hull & is_coloured(x, l, r))
}

// Returns what a node adds to the number of blacks: 0 if it is red, else 1.
fn shade(red: bool) -> u64
    ensures { (result ≡ black_of red) × (result ≤ 1) }
{
    if red { 0 } else { 1 }
}

// Returns what is found of a node, given what was found of its subtrees.
pub fn combine(x: Node, l: Found, r: Found) -> Found
    requires { (l.size + r.size + 1 < 18446744073709551616) × (l.blacks + 1 < 18446744073709551616) }
    ensures { result ≡ combined x l r }
{
    if is_fit(x, l, r) {
        let first = l.first;
        let last = r.last;
        let hull = x.hull;
        Found {
            ok: true,
            size: l.size + r.size + 1,
            blacks: shade(x.red) + l.blacks,
            red: x.red,
            first,
            last,
            hull,
        }
    } else {
        no_nodes(false, x.interval)
    }
}

// Whether a link below the slot `parent` leads to a slot that names `parent` and has no children.
// The height must also allow for the two undefined links below that slot.
fn is_leaf(nodes: &[u64], narrow: bool, count: u64, link: u64, parent: u64, height: u64) -> bool
    requires { HoldsIn narrow nodes.now count }
    ensures { result ≡ childless (kid (as_eight narrow nodes.now) true link) (kid (as_eight narrow nodes.now) false link) (par (as_eight narrow nodes.now) link) count height parent link }
{
    if link < count {
        let left = child_of(nodes, narrow, link, true);
        let right = child_of(nodes, narrow, link, false);
        let up = parent_of(nodes, narrow, link);
        (up == parent) & (left == U) & (right == U) & (link != U) & (1 < height)
    } else {
        false
    }
}

// Returns what is found of a node without children.
fn lone(x: Node) -> Found
    ensures { result ≡ combined x (no_nodes_lem true x.interval) (no_nodes_lem true x.interval) }
{
    let own = x.interval;
    let none = no_nodes(true, own);
    combine(x, none, none)
}

// Returns what is found of the subtree at a link below the slot `parent`, whose interval is
// `above`. The subtree fails if a path down has `height` nodes or more. Half of all nodes have no
// children and are judged at once, which saves three calls for each.
#[cycle(below_survey_at)]
fn below(
    nodes: &[u64],
    narrow: bool,
    colours: &[u8],
    count: u64,
    link: u64,
    parent: u64,
    above: Interval,
    height: u64,
) -> Found
    requires { HoldsIn narrow nodes.now count × HoldsBits colours.now count × (height ≤ 33) }
    ensures { result ≡ survey (as_eight narrow nodes.now) colours.now count height parent above link }
{
    if is_leaf(nodes, narrow, count, link, parent, height) {
        lone(node_at(nodes, narrow, colours, link))
    } else {
        survey_at(nodes, narrow, colours, count, link, parent, above, height)
    }
}

// Returns the same as `below`, case by case.
#[cycle(below_survey_at)]
fn survey_at(
    nodes: &[u64],
    narrow: bool,
    colours: &[u8],
    count: u64,
    link: u64,
    parent: u64,
    above: Interval,
    height: u64,
) -> Found
    requires { HoldsIn narrow nodes.now count × HoldsBits colours.now count × (height ≤ 33) }
    ensures { result ≡ survey (as_eight narrow nodes.now) colours.now count height parent above link }
{
    if height == 0 {
        return no_nodes(false, above);
    }
    if link == U {
        return no_nodes(true, above);
    }
    if count <= link {
        return no_nodes(false, above);
    }
    let x = node_at(nodes, narrow, colours, link);
    if is_tied(x, parent) {
        let own = x.interval;
        let rest = height - 1;
        let l = below(nodes, narrow, colours, count, x.left, link, own, rest);
        let r = below(nodes, narrow, colours, count, x.right, link, own, rest);
        combine(x, l, r)
    } else {
        no_nodes(false, above)
    }
}

// Whether a store passes. No tree that passes is higher than 32. The root has no slot above it, so
// any interval serves as the one above.
pub fn audit(nodes: &[u64], narrow: bool, colours: &[u8], count: u64, root: u64) -> bool
    requires { HoldsIn narrow nodes.now count × HoldsBits colours.now count }
    ensures { result ≡ whole_of (as_eight narrow nodes.now) colours.now count root }
{
    let none = Interval { start: 0, end: 0 };
    let found = survey_at(nodes, narrow, colours, count, root, U, none, 33);
    found.ok & (found.size == count) & !found.red
}
