// The repair before a removal: the root test and the five cases of `restructure_rm_complex_cases`,
// in the order of src/tree_rm.rs. The nephews are the sibling's children. The close nephew is on
// the node's side of the sibling, the distant one on the other side.
#![tactic(auto)]

ghost use Rattle.std.specs.Prelude.{◌≡◌, true, not, ◌+◌, ◌<◌};
ghost use Rattle.words.specs.Layouts.{as_eight, HoldsIn};
ghost use Rattle.bitvec.specs.Colours.{red, red_at};
ghost use Rattle.tree_edit.specs.Links.{root_after};
ghost use Rattle.tree_edit.specs.Rotations.{rotate_2, rotate_4};
ghost use Rattle.tree_rm_rule.specs.Repair.{two, four, five, choose, act, round_at_lem, round, repair};
ghost use Rattle.tree_edit.specs.Store.{store};
ghost use Rattle.tree_edit.specs.Rounds.{ending};
ghost use Rattle.tree_rm_rule.specs.Remove.{restructure};
ghost use Rattle.tree_rm_repair.specs.Answers.{case_of};
ghost use Rattle.tree_links.specs.Answers.{next, reach};
ghost use Rattle.tree_edit.specs.Reach.{changes};
ghost use Rattle.tree_rm_rule.specs.Reach.{act_hulls, round_at_hulls, round_hulls, repair_hulls, restructure_hulls};
ghost use Rattle.words.specs.Nodes.{HoldsBits};
ghost use Rattle.tree_rm_rule.proofs.Stays.{round_stays, most};

use bitvec::colours::{
    copy_colour, is_black, is_black_or_nil, is_red, set_black, set_black_at, set_red,
};
use std::ops::ControlFlow;
use tree_links::{
    Next, Onward, Repaired, Rounds, repair, replace_children, rework_both, rotate_up, set_child,
};
use words::ix::slot_at;
use words::node::{child_of, parent_of};

#[derive(Clone, Copy)]
pub enum Case {
    // Node has black parent and black sibling, both nephews are black.
    One,
    // Node has black parent and red sibling, both nephews are black.
    Two,
    // Terminal: node has red parent, sibling and both nephews are black.
    Three,
    // Node has any parent, sibling and distant nephew are black, but close nephew is red.
    Four,
    // Terminal: any parent, black sibling, any close nephew and red distant nephew.
    Five,
}

// Returns the case. The bools say whether the parent, the sibling, the close and the distant nephew
// are black.
fn case_of(parent: bool, sibling: bool, close: bool, distant: bool) -> Case
    ensures { case_of result ≡ choose (not parent) (not sibling) (not close) (not distant) }
{
    if parent & close & distant {
        if sibling { Case::One } else { Case::Two }
    } else if !parent & sibling & close & distant {
        Case::Three
    } else if sibling & distant & !close {
        Case::Four
    } else {
        Case::Five
    }
}

// The relatives of the node that a round is at: the slots of its parent and its sibling, the link
// words of its close and its distant nephew, and whether it is the left child.
#[derive(Clone, Copy)]
struct Kin {
    parent: u64,
    sibling: u64,
    close: u64,
    distant: u64,
    left: bool,
}

// Returns the case that the relatives' colours make.
fn case_at(colours: &[u8], count: u64, kin: Kin) -> Case
    requires { HoldsBits colours.now count × (kin.parent < count) × (kin.sibling < count) }
    ensures { case_of result ≡ choose (red colours.now kin.parent) (red colours.now kin.sibling) (red_at count colours.now kin.close) (red_at count colours.now kin.distant) }
{
    let parent_black = is_black(colours, kin.parent);
    let sibling_black = is_black(colours, kin.sibling);
    let close_nephew_black = is_black_or_nil(colours, count, kin.close);
    let distant_nephew_black = is_black_or_nil(colours, count, kin.distant);
    case_of(
        parent_black,
        sibling_black,
        close_nephew_black,
        distant_nephew_black,
    )
}

// Writes the links of case two: the sibling takes the place of the parent. Returns the root.
fn rotate_two(nodes: &mut [u64], narrow: bool, count: u64, root: u64, kin: Kin) -> u64
    requires { HoldsIn narrow nodes.old count × (kin.parent < count) × (kin.sibling < count) }
    ensures { (result ≡ root_after count (as_eight narrow nodes.old) root kin.parent kin.sibling) × (as_eight narrow nodes.new ≡ rotate_2 count (as_eight narrow nodes.old) kin.left kin.parent kin.sibling) }
{
    let close = child_of(nodes, narrow, kin.sibling, kin.left);
    let top = replace_children(nodes, narrow, count, root, kin.parent, kin.sibling);
    set_child(nodes, narrow, count, kin.sibling, kin.parent, kin.left);
    set_child(nodes, narrow, count, kin.parent, close, !kin.left);
    top
}

// Writes the links of case four: the close nephew takes the place of the sibling.
fn rotate_four(nodes: &mut [u64], narrow: bool, count: u64, kin: Kin)
    requires { HoldsIn narrow nodes.old count × (kin.parent < count) × (kin.sibling < count) × (kin.close < count) }
    ensures { as_eight narrow nodes.new ≡ rotate_4 count (as_eight narrow nodes.old) kin.left kin.parent kin.sibling kin.close }
{
    let child = child_of(nodes, narrow, kin.close, !kin.left);
    set_child(nodes, narrow, count, kin.sibling, child, kin.left);
    set_child(nodes, narrow, count, kin.close, kin.sibling, !kin.left);
    set_child(nodes, narrow, count, kin.parent, kin.close, !kin.left);
}

fn case_two(
    nodes: &mut [u64],
    narrow: bool,
    colours: &mut [u8],
    count: u64,
    root: u64,
    ix: u64,
    kin: Kin,
) -> Next
    requires { HoldsIn narrow nodes.old count × HoldsBits colours.old count × (kin.parent < count) × (kin.sibling < count) }
    ensures { (next result (as_eight narrow nodes.new) colours.new ≡ act count two (as_eight narrow nodes.old) colours.old root ix kin.left kin.parent kin.sibling 0 0) × (reach result ≡ 0) }
{
    set_red(colours, kin.parent);
    set_black(colours, kin.sibling);
    let top = rotate_two(nodes, narrow, count, root, kin);
    ControlFlow::Continue(Onward {
        root: top,
        at: ix,
        reach: 0,
    })
}

fn case_four(
    nodes: &mut [u64],
    narrow: bool,
    colours: &mut [u8],
    count: u64,
    root: u64,
    ix: u64,
    kin: Kin,
) -> Next
    requires { HoldsIn narrow nodes.old count × HoldsBits colours.old count × (kin.parent < count) × (kin.sibling < count) × (kin.close < count) }
    ensures { (next result (as_eight narrow nodes.new) colours.new ≡ act count four (as_eight narrow nodes.old) colours.old root ix kin.left kin.parent kin.sibling kin.close 0) × (reach result ≡ changes count (act_hulls count four (as_eight narrow nodes.old) kin.left kin.parent kin.sibling kin.close)) }
{
    set_black(colours, kin.close);
    set_red(colours, kin.sibling);
    rotate_four(nodes, narrow, count, kin);
    let changed = rework_both(nodes, narrow, count, kin.sibling, kin.close);
    ControlFlow::Continue(Onward {
        root,
        at: ix,
        reach: changed,
    })
}

fn case_five(
    nodes: &mut [u64],
    narrow: bool,
    colours: &mut [u8],
    count: u64,
    root: u64,
    kin: Kin,
) -> Next
    requires { HoldsIn narrow nodes.old count × HoldsBits colours.old count × (kin.parent < count) × (kin.sibling < count) }
    ensures { (next result (as_eight narrow nodes.new) colours.new ≡ act count five (as_eight narrow nodes.old) colours.old root 0 kin.left kin.parent kin.sibling 0 kin.distant) × (reach result ≡ 0) }
{
    copy_colour(colours, kin.parent, kin.sibling);
    set_black(colours, kin.parent);
    set_black_at(colours, count, kin.distant);
    let top = rotate_up(
        nodes,
        narrow,
        count,
        root,
        kin.left,
        kin.parent,
        kin.sibling,
    );
    ControlFlow::Break(Repaired {
        root: top,
        reach: 0,
    })
}

// Does what the case asks for, for the node ix with its relatives.
fn act_on(
    nodes: &mut [u64],
    narrow: bool,
    colours: &mut [u8],
    count: u64,
    root: u64,
    ix: u64,
    kin: Kin,
    case: Case,
) -> Next
    requires { HoldsIn narrow nodes.old count × HoldsBits colours.old count × (kin.parent < count) × (kin.sibling < count) × (case_of case ≡ four → kin.close < count) }
    ensures { (next result (as_eight narrow nodes.new) colours.new ≡ act count (case_of case) (as_eight narrow nodes.old) colours.old root ix kin.left kin.parent kin.sibling kin.close kin.distant)
        × (reach result ≡ changes count (act_hulls count (case_of case) (as_eight narrow nodes.old) kin.left kin.parent kin.sibling kin.close)) }
{
    match case {
        Case::One => {
            set_red(colours, kin.sibling);
            ControlFlow::Continue(Onward {
                root,
                at: kin.parent,
                reach: 0,
            })
        }
        Case::Two => case_two(nodes, narrow, colours, count, root, ix, kin),
        Case::Three => {
            set_black(colours, kin.parent);
            set_red(colours, kin.sibling);
            ControlFlow::Break(Repaired { root, reach: 0 })
        }
        Case::Four => case_four(nodes, narrow, colours, count, root, ix, kin),
        Case::Five => case_five(nodes, narrow, colours, count, root, kin),
    }
}

// Does one round, given the parent. In a store that passes the check of crate audit the node has a
// sibling.
fn round_at(
    nodes: &mut [u64],
    narrow: bool,
    colours: &mut [u8],
    count: u64,
    root: u64,
    ix: u64,
    parent: u64,
    left: bool,
) -> Next
    requires { HoldsIn narrow nodes.old count × HoldsBits colours.old count × (parent < count) }
    ensures { (next result (as_eight narrow nodes.new) colours.new ≡ round_at_lem count (as_eight narrow nodes.old) colours.old root ix parent left)
        × (reach result ≡ changes count (round_at_hulls count (as_eight narrow nodes.old) colours.old parent left)) }
{
    let Some(sibling) = slot_at(child_of(nodes, narrow, parent, !left), count) else {
        return ControlFlow::Break(Repaired { root, reach: 0 });
    };
    let close = child_of(nodes, narrow, sibling, left);
    let distant = child_of(nodes, narrow, sibling, !left);
    let kin = Kin {
        parent,
        sibling,
        close,
        distant,
        left,
    };
    let case = case_at(colours, count, kin);
    act_on(nodes, narrow, colours, count, root, ix, kin, case)
}

// The repair before a removal, as a loop of rounds.
struct Removal;

impl Rounds for Removal {
    ghost round = { round };

    ghost hulls = { round_hulls };

    fn one_round(
        nodes: &mut [u64],
        narrow: bool,
        colours: &mut [u8],
        count: u64,
        root: u64,
        at: u64,
    ) -> Next {
        // Case (terminal): Node is the root of the tree.
        let Some(parent) = slot_at(parent_of(nodes, narrow, at), count) else {
            return ControlFlow::Break(Repaired { root, reach: 0 });
        };
        let left = child_of(nodes, narrow, parent, true) == at;
        round_at(nodes, narrow, colours, count, root, at, parent, left)
    }

    ghost stays = { round_stays };

    ghost few = { most };
}

// Restructures the tree before ix is removed. In a store that passes the check 36 rounds are
// enough.
fn restructure_rm_complex_cases(
    nodes: &mut [u64],
    narrow: bool,
    colours: &mut [u8],
    count: u64,
    root: u64,
    ix: u64,
) -> Repaired
    requires { HoldsIn narrow nodes.old count × HoldsBits colours.old count × (ix < count) }
    ensures { (store (as_eight narrow nodes.new) colours.new result.root ≡ ending (repair count 36 (as_eight narrow nodes.old) colours.old root ix))
        × (result.reach ≡ changes count (repair_hulls count 36 (as_eight narrow nodes.old) colours.old root ix)) }
{
    repair::<Removal>(nodes, narrow, colours, count, root, ix, 36)
}

// Restructures the tree before ix, with the child link `child`, is removed.
pub fn restructure_rm(
    nodes: &mut [u64],
    narrow: bool,
    colours: &mut [u8],
    count: u64,
    root: u64,
    ix: u64,
    child: u64,
) -> Repaired
    requires { HoldsIn narrow nodes.old count × HoldsBits colours.old count × (ix < count) }
    ensures { (store (as_eight narrow nodes.new) colours.new result.root ≡ restructure count (as_eight narrow nodes.old) colours.old root ix child)
        × (result.reach ≡ changes count (restructure_hulls count (as_eight narrow nodes.old) colours.old root ix child)) }
{
    if is_red(colours, ix) {
        return Repaired { root, reach: 0 };
    }
    if !is_black_or_nil(colours, count, child) {
        // The child will be removed later.
        set_red(colours, child);
        return Repaired { root, reach: 0 };
    }
    restructure_rm_complex_cases(nodes, narrow, colours, count, root, ix)
}
