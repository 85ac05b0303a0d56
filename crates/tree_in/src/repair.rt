// The repair after an insertion. It recolours while the uncle, the parent's sibling, is red.
// Otherwise it makes one or two rotations. If it reaches the root, it makes the root black.
ghost use Rattle.std.specs.Prelude.{◌≡◌, true, false, cond, not, ◌+◌, ◌<◌, ◌≤◌, eqb};
ghost use Rattle.words.specs.Layouts.{as_eight, HoldsIn};
ghost use Rattle.words.specs.Nodes.{kid, HasBit, HoldsBits};
ghost use Rattle.bitvec.specs.Colours.{paint};
ghost use Rattle.tree_edit.specs.Links.{root_after};
ghost use Rattle.tree_edit.specs.Store.{store};
ghost use Rattle.tree_edit.specs.Rounds.{ending};
ghost use Rattle.tree_edit.specs.Reach.{changes};
ghost use Rattle.tree_links.specs.Answers.{next, reach};
ghost use Rattle.tree_in_rule.specs.InsertRepair.{rotated, outer, inner, insert_round_at, insert_round_below, insert_round, insert_repair_lem};
ghost use Rattle.tree_in_rule.proofs.Reached.{insert_round_le};
ghost use Rattle.tree_in_rule.proofs.Stays.{insert_stays};
ghost use Rattle.tree_in_rule.specs.Reach.{rotated_hulls, outer_hulls, inner_hulls, insert_round_at_hulls, insert_round_below_hulls, insert_round_hulls, insert_repair_hulls};

use bitvec::colours::{is_black_or_nil, is_red, set_black, set_red};
use std::ops::ControlFlow;
use tree_links::{Next, Onward, Repaired, Rounds, repair, rework_both, rotate_up};
use words::ix::slot_at;
use words::node::{child_of, parent_of};

// Rotates left if `left_side` is true, else right: slot `up`, the child of `index` on the other
// side, takes its place. The hull of a slot is the least interval that contains the intervals of
// its subtree. The hull of `index`, which went down, is computed first, because that of `up`
// depends on it.
fn rotate(
    nodes: &mut [u64],
    narrow: bool,
    count: u64,
    root: u64,
    left_side: bool,
    index: u64,
    up: u64,
) -> Repaired
    requires { HoldsIn narrow nodes.old count × (index < count) × (up < count) }
    ensures { (result.root ≡ root_after count (as_eight narrow nodes.old) root index up) × (as_eight narrow nodes.new ≡ rotated count (as_eight narrow nodes.old) left_side index up)
        × (result.reach ≡ changes count (rotated_hulls count (as_eight narrow nodes.old) left_side index up)) }
{
    let top = rotate_up(nodes, narrow, count, root, left_side, index, up);
    let changed = rework_both(nodes, narrow, count, index, up);
    Repaired {
        root: top,
        reach: changed,
    }
}

// The relatives of the red slot that a round is at: its parent, its grandparent, and whether the
// parent is the left child.
#[derive(Clone, Copy)]
struct Kin {
    parent: u64,
    grandparent: u64,
    left: bool,
}

// The parent takes the grandparent's place. The parent becomes black and the grandparent red.
// `before` hulls changed already in this round.
fn rotate_outer(
    nodes: &mut [u64],
    narrow: bool,
    colours: &mut [u8],
    count: u64,
    root: u64,
    kin: Kin,
    before: u64,
) -> Next
    requires { HoldsIn narrow nodes.old count × HoldsBits colours.old count × (kin.parent < count) × (kin.grandparent < count) × (before ≤ 2) }
    ensures { (next result (as_eight narrow nodes.new) colours.new ≡ outer count (as_eight narrow nodes.old) colours.old root kin.left kin.parent kin.grandparent)
        × (reach result ≡ before + changes count (outer_hulls count (as_eight narrow nodes.old) kin.left kin.parent kin.grandparent)) }
{
    let rotated = rotate(
        nodes,
        narrow,
        count,
        root,
        !kin.left,
        kin.grandparent,
        kin.parent,
    );
    set_black(colours, kin.parent);
    set_red(colours, kin.grandparent);
    ControlFlow::Break(Repaired {
        root: rotated.root,
        reach: before + rotated.reach,
    })
}

// The slot `index` is the child of its parent on the other side, and takes the parent's place
// first. The root stays unchanged, since the parent has a parent too.
fn rotate_inner(
    nodes: &mut [u64],
    narrow: bool,
    colours: &mut [u8],
    count: u64,
    root: u64,
    index: u64,
    kin: Kin,
) -> Next
    requires { HoldsIn narrow nodes.old count × HoldsBits colours.old count × (index < count) × (kin.parent < count) × (kin.grandparent < count) }
    ensures { (next result (as_eight narrow nodes.new) colours.new ≡ inner count (as_eight narrow nodes.old) colours.old root index kin.left kin.parent kin.grandparent)
        × (reach result ≡ changes count (inner_hulls count (as_eight narrow nodes.old) index kin.left kin.parent kin.grandparent)) }
{
    let first = rotate(nodes, narrow, count, root, kin.left, kin.parent, index);
    let turned = Kin {
        parent: index,
        ..kin
    };
    rotate_outer(nodes, narrow, colours, count, root, turned, first.reach)
}

// Makes the parent and the uncle black, and the grandparent red.
fn recolour(colours: &mut [u8], parent: u64, uncle: u64, grandparent: u64)
    requires { HasBit colours.old parent × HasBit colours.old uncle × HasBit colours.old grandparent }
    ensures { colours.new ≡ paint (paint (paint colours.old parent false) uncle false) grandparent true }
{
    set_black(colours, parent);
    set_black(colours, uncle);
    set_red(colours, grandparent);
}

// Does one round if the uncle is not red.
fn round_rotated(
    nodes: &mut [u64],
    narrow: bool,
    colours: &mut [u8],
    count: u64,
    root: u64,
    index: u64,
    kin: Kin,
) -> Next
    requires { HoldsIn narrow nodes.old count × HoldsBits colours.old count × (index < count) × (kin.parent < count) × (kin.grandparent < count) }
    ensures { (next result (as_eight narrow nodes.new) colours.new
        ≡ cond (eqb (kid (as_eight narrow nodes.old) (not kin.left) kin.parent) index)
        (inner count (as_eight narrow nodes.old) colours.old root index kin.left kin.parent kin.grandparent)
        (outer count (as_eight narrow nodes.old) colours.old root kin.left kin.parent kin.grandparent))
        × (reach result ≡ changes count (cond (eqb (kid (as_eight narrow nodes.old) (not kin.left) kin.parent) index)
        (inner_hulls count (as_eight narrow nodes.old) index kin.left kin.parent kin.grandparent)
        (outer_hulls count (as_eight narrow nodes.old) kin.left kin.parent kin.grandparent))) }
{
    if child_of(nodes, narrow, kin.parent, !kin.left) == index {
        return rotate_inner(nodes, narrow, colours, count, root, index, kin);
    }
    rotate_outer(nodes, narrow, colours, count, root, kin, 0)
}

// Does one round, given the relatives.
fn round_at(
    nodes: &mut [u64],
    narrow: bool,
    colours: &mut [u8],
    count: u64,
    root: u64,
    index: u64,
    kin: Kin,
) -> Next
    requires { HoldsIn narrow nodes.old count × HoldsBits colours.old count × (index < count) × (kin.parent < count) × (kin.grandparent < count) }
    ensures { (next result (as_eight narrow nodes.new) colours.new ≡ insert_round_at count (as_eight narrow nodes.old) colours.old root index kin.parent kin.grandparent kin.left)
        × (reach result ≡ changes count (insert_round_at_hulls count (as_eight narrow nodes.old) colours.old index kin.parent kin.grandparent kin.left)) }
{
    let uncle = child_of(nodes, narrow, kin.grandparent, !kin.left);
    if is_black_or_nil(colours, count, uncle) {
        return round_rotated(nodes, narrow, colours, count, root, index, kin);
    }
    recolour(colours, kin.parent, uncle, kin.grandparent);
    ControlFlow::Continue(Onward {
        root,
        at: kin.grandparent,
        reach: 0,
    })
}

// Does one round below a red parent. In a store that passes the check of crate audit the parent has
// a parent too, since the root is black.
fn round_below(
    nodes: &mut [u64],
    narrow: bool,
    colours: &mut [u8],
    count: u64,
    root: u64,
    index: u64,
    parent: u64,
) -> Next
    requires { HoldsIn narrow nodes.old count × HoldsBits colours.old count × (index < count) × (parent < count) }
    ensures { (next result (as_eight narrow nodes.new) colours.new ≡ insert_round_below count (as_eight narrow nodes.old) colours.old root index parent)
        × (reach result ≡ changes count (insert_round_below_hulls count (as_eight narrow nodes.old) colours.old index parent)) }
{
    let Some(grandparent) = slot_at(parent_of(nodes, narrow, parent), count) else {
        return ControlFlow::Break(Repaired { root, reach: 0 });
    };
    let left = child_of(nodes, narrow, grandparent, true) == parent;
    let kin = Kin {
        parent,
        grandparent,
        left,
    };
    round_at(nodes, narrow, colours, count, root, index, kin)
}

// The repair after an insertion, as a loop of rounds.
struct Insertion;

impl Rounds for Insertion {
    ghost round = { insert_round };

    ghost hulls = { insert_round_hulls };

    // Does one round, at the red slot `at`.
    fn one_round(
        nodes: &mut [u64],
        narrow: bool,
        colours: &mut [u8],
        count: u64,
        root: u64,
        at: u64,
    ) -> Next {
        let Some(parent) = slot_at(parent_of(nodes, narrow, at), count) else {
            set_black(colours, at);
            return ControlFlow::Break(Repaired { root, reach: 0 });
        };
        if is_red(colours, parent) {
            return round_below(nodes, narrow, colours, count, root, at, parent);
        }
        ControlFlow::Break(Repaired { root, reach: 0 })
    }

    ghost stays = { insert_stays };

    ghost few = { insert_round_le };
}

// Repairs the tree from the red slot `index` upward. Each round that does not end the repair goes
// up two levels, so in a store that passes the check 32 rounds are enough.
pub(crate) fn insert_repair(
    nodes: &mut [u64],
    narrow: bool,
    colours: &mut [u8],
    count: u64,
    root: u64,
    index: u64,
) -> Repaired
    requires { HoldsIn narrow nodes.old count × HoldsBits colours.old count × (index < count) }
    ensures { (store (as_eight narrow nodes.new) colours.new result.root ≡ ending (insert_repair_lem count 32 (as_eight narrow nodes.old) colours.old root index))
        × (result.reach ≡ changes count (insert_repair_hulls count 32 (as_eight narrow nodes.old) colours.old root index)) }
{
    repair::<Insertion>(nodes, narrow, colours, count, root, index, 32)
}
