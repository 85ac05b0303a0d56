// What insertion and removal both write: links between slots, the rotation made of them, and the
// hulls up to the root. A hull is the least interval that contains the intervals of a subtree. What
// the repairs return is here too.
#![tactic(auto)]

ghost use Rattle.std.specs.Prelude.{◌≡◌, true, List, ℕ, ◌+◌, ◌<◌, ◌≤◌};
ghost use Rattle.words.specs.Layouts.{as_eight, kid_fits, HoldsIn, HasIn};
ghost use Rattle.words.specs.Ix.{on_link};
ghost use Rattle.words.specs.Nodes.{fix, HoldsBits};
ghost use Rattle.tree_edit.specs.Links.{adopt, set_child_lem, redirected, remove_child_lem, redirect, replaced, root_after, fix_up, leftmost};
ghost use Rattle.tree_edit.specs.Rotations.{rotate};
ghost use Rattle.tree_edit.specs.Reach.{Work, differs, changes, both_hulls, up_hulls, loop_hulls};
ghost use Rattle.tree_edit.specs.Rounds as rule;
ghost use Rattle.tree_edit.specs.Rounds.{again, ending, loop};
ghost use Rattle.tree_edit.specs.Store.{store};
ghost use Rattle.tree_links.specs.Answers.{next, reach};

use std::ops::ControlFlow;
use words::ix::{U, slot_at};
use words::node::{child_of, parent_of, put_child, put_parent, update_subtree_interval};

// The root after a repair, and how many hulls changed in it.
#[derive(Clone, Copy)]
pub struct Repaired {
    pub root: u64,
    pub reach: u64,
}

// Where a repair goes on after a round: the root, the slot, and how many hulls changed in the
// round.
#[derive(Clone, Copy)]
pub struct Onward {
    pub root: u64,
    pub at: u64,
    pub reach: u64,
}

// What a round of a repair returns: `Break` if the repair is done, else `Continue`.
pub type Next = ControlFlow<Repaired, Onward>;

// A repair, which is a loop over a round. `round` and `hulls` are the rule of one round: what it
// comes to, and the hulls that it works out.
pub trait Rounds {
    ghost round: { ℕ → List ℕ → List ℕ → ℕ → ℕ → rule.Next };

    ghost hulls: { ℕ → List ℕ → List ℕ → ℕ → List Work };

    // Does one round, at the slot `at`.
    fn one_round(
        nodes: &mut [u64],
        narrow: bool,
        colours: &mut [u8],
        count: u64,
        root: u64,
        at: u64,
    ) -> Next
        requires { HoldsIn narrow nodes.old count × HoldsBits colours.old count × (at < count) }
        ensures { (next result (as_eight narrow nodes.new) colours.new ≡ round count (as_eight narrow nodes.old) colours.old root at)
            × (reach result ≡ changes count (hulls count (as_eight narrow nodes.old) colours.old at)) };

    // The repair goes on at a slot, and a round changes at most four hulls.
    ghost stays: { (n : ℕ) (W C : List ℕ) (r s : ℕ) (X D : List ℕ) (q i : ℕ) → s < n → round n W C r s ≡ again X D q i → i < n };

    ghost few: { (n : ℕ) (W C : List ℕ) (s : ℕ) → changes n (hulls n W C s) ≤ 4 };
}

// Sets the child's parent link, if `child` is a slot.
pub fn adopt_child(nodes: &mut [u64], narrow: bool, count: u64, child: u64, parent: u64)
    requires { HoldsIn narrow nodes.old count × (parent < count) }
    ensures { as_eight narrow nodes.new ≡ adopt count (as_eight narrow nodes.old) child parent }
{
    let Some(s) = slot_at(child, count) else {
        return;
    };
    put_parent(nodes, narrow, s, parent);
}

// Makes the link of slot `parent` that leads to `old` lead to `new`: the left link if it leads to
// `old`, else the right one.
fn replace_child(nodes: &mut [u64], narrow: bool, parent: u64, old: u64, new: u64)
    requires { HasIn narrow nodes.old parent × (kid_fits narrow new ≡ true) }
    ensures { as_eight narrow nodes.new ≡ redirected (as_eight narrow nodes.old) parent old new }
{
    let is_left = child_of(nodes, narrow, parent, true) == old;
    put_child(nodes, narrow, parent, is_left, new);
}

// Like `replace_child`, for a parent link that may lead to no slot.
pub fn replace_child_at(
    nodes: &mut [u64],
    narrow: bool,
    count: u64,
    parent: u64,
    old: u64,
    new: u64,
)
    requires { HoldsIn narrow nodes.old count × (kid_fits narrow new ≡ true) }
    ensures { as_eight narrow nodes.new ≡ redirect count (as_eight narrow nodes.old) parent old new }
{
    let Some(s) = slot_at(parent, count) else {
        return;
    };
    replace_child(nodes, narrow, s, old, new);
}

pub fn remove_child(nodes: &mut [u64], narrow: bool, parent: u64, child: u64)
    requires { HasIn narrow nodes.old parent }
    ensures { as_eight narrow nodes.new ≡ remove_child_lem (as_eight narrow nodes.old) parent child }
{
    replace_child(nodes, narrow, parent, child, U);
}

pub fn set_child(
    nodes: &mut [u64],
    narrow: bool,
    count: u64,
    parent: u64,
    child: u64,
    left_side: bool,
)
    requires { HoldsIn narrow nodes.old count × (parent < count) × (kid_fits narrow child ≡ true) }
    ensures { as_eight narrow nodes.new ≡ set_child_lem count (as_eight narrow nodes.old) parent child left_side }
{
    adopt_child(nodes, narrow, count, child, parent);
    put_child(nodes, narrow, parent, left_side, child);
}

// Follows left links from slot k, at most `height` of them. Returns the slot that it reaches.
pub fn leftmost_from(nodes: &[u64], narrow: bool, count: u64, k: u64, height: u64) -> u64
    requires { HoldsIn narrow nodes.now count × (k < count) }
    ensures { (result ≡ leftmost count height (as_eight narrow nodes.now) k) × (result < count) }
{
    if height == 0 {
        return k;
    }
    let Some(left) = slot_at(child_of(nodes, narrow, k, true), count) else {
        return k;
    };
    leftmost_from(nodes, narrow, count, left, height - 1)
}

// Returns the root after `new` took the place of a slot whose parent link is `parent`. It is `new`
// if that link leads to no slot.
fn root_below(count: u64, root: u64, parent: u64, new: u64) -> u64
    ensures { result ≡ on_link count parent (λ s. root) new }
{
    let Some(_) = slot_at(parent, count) else {
        return new;
    };
    root
}

// Makes the link that led to `old` lead to `new`. Returns the root. `new` gets the parent link of
// `old` as it is, even if it leads to no slot. In a store that passes the check of crate audit it
// is U then.
pub fn replace_children(
    nodes: &mut [u64],
    narrow: bool,
    count: u64,
    root: u64,
    old: u64,
    new: u64,
) -> u64
    requires { HoldsIn narrow nodes.old count × (old < count) × (new < count) }
    ensures { (result ≡ root_after count (as_eight narrow nodes.old) root old new) × (as_eight narrow nodes.new ≡ replaced count (as_eight narrow nodes.old) old new) }
{
    let parent = parent_of(nodes, narrow, old);
    replace_child_at(nodes, narrow, count, parent, old, new);
    put_parent(nodes, narrow, new, parent);
    root_below(count, root, parent, new)
}

// The sibling takes the place of the parent. These are the links of case five of the repair before
// a removal, and those of a rotation after an insertion. Case two differs only in the order of the
// last two writes. Returns the root.
pub fn rotate_up(
    nodes: &mut [u64],
    narrow: bool,
    count: u64,
    root: u64,
    node_is_left: bool,
    parent: u64,
    sibling: u64,
) -> u64
    requires { HoldsIn narrow nodes.old count × (parent < count) × (sibling < count) }
    ensures { (result ≡ root_after count (as_eight narrow nodes.old) root parent sibling) × (as_eight narrow nodes.new ≡ rotate count (as_eight narrow nodes.old) node_is_left parent sibling) }
{
    let close = child_of(nodes, narrow, sibling, node_is_left);
    let top = replace_children(nodes, narrow, count, root, parent, sibling);
    set_child(nodes, narrow, count, parent, close, !node_is_left);
    set_child(nodes, narrow, count, sibling, parent, node_is_left);
    top
}

// Computes the hull of slot ix anew. Returns 1 if either end changed, else 0.
pub fn rework_hull(nodes: &mut [u64], narrow: bool, count: u64, ix: u64) -> u64
    requires { HoldsIn narrow nodes.old count × (ix < count) }
    ensures { (result ≡ differs count (as_eight narrow nodes.old) ix) × (as_eight narrow nodes.new ≡ fix count (as_eight narrow nodes.old) ix) }
{
    update_subtree_interval(nodes, narrow, count, ix) as u64
}

// Computes the hull of slot `first` anew, then that of slot `second`. Returns how many of the two
// changed.
pub fn rework_both(nodes: &mut [u64], narrow: bool, count: u64, first: u64, second: u64) -> u64
    requires { HoldsIn narrow nodes.old count × (first < count) × (second < count) }
    ensures { (result ≡ changes count (both_hulls count (as_eight narrow nodes.old) first second)) × (as_eight narrow nodes.new ≡ fix count (fix count (as_eight narrow nodes.old) first) second) }
{
    let changed = rework_hull(nodes, narrow, count, first);
    let again = rework_hull(nodes, narrow, count, second);
    changed + again
}

// Computes the hulls from the link word `from` up to the root anew. Returns how many changed. In a
// store that passes the check no way up is longer than 32.
pub fn fix_intervals_up(nodes: &mut [u64], narrow: bool, count: u64, from: u64) -> u64
    requires { HoldsIn narrow nodes.old count }
    ensures { (result ≡ changes count (up_hulls count 32 (as_eight narrow nodes.old) from)) × (as_eight narrow nodes.new ≡ fix_up count 32 (as_eight narrow nodes.old) from) }
{
    let mut at = from;
    let mut reach: u64 = 0;
    for _ in 0..32_u64 {
        let Some(ix) = slot_at(at, count) else {
            return reach;
        };
        reach += rework_hull(nodes, narrow, count, ix);
        at = parent_of(nodes, narrow, ix);
    }
    reach
}

// Repairs the tree from the slot `from`, in at most `rounds` rounds.
pub fn repair<R: Rounds>(
    nodes: &mut [u64],
    narrow: bool,
    colours: &mut [u8],
    count: u64,
    root: u64,
    from: u64,
    rounds: u64,
) -> Repaired
    requires { HoldsIn narrow nodes.old count × HoldsBits colours.old count × (from < count) × (rounds ≤ 36) }
    ensures { (store (as_eight narrow nodes.new) colours.new result.root ≡ ending (loop (R.round count) rounds (as_eight narrow nodes.old) colours.old root from))
        × (result.reach ≡ changes count (loop_hulls (R.round count) (R.hulls count) rounds (as_eight narrow nodes.old) colours.old root from)) }
{
    let mut at = from;
    let mut top = root;
    let mut reach = 0;
    for _ in 0..rounds {
        match R::one_round(nodes, narrow, colours, count, top, at) {
            ControlFlow::Break(last) => {
                return Repaired {
                    root: last.root,
                    reach: reach + last.reach,
                };
            }
            ControlFlow::Continue(next) => {
                top = next.root;
                at = next.at;
                reach += next.reach;
            }
        }
    }
    Repaired { root: top, reach }
}
