// Nodes change places until each is in the slot that a plan gives it. No other memory is needed,
// and each exchange brings one node to its slot for good.
ghost use Rattle.std.specs.Prelude.{◌≡◌, true, cond, ◌||◌, ◌+◌, ◌*◌, ◌<◌, eqb};
ghost use Rattle.words.specs.Ix.{gone};
ghost use Rattle.words.specs.Layouts.{as_eight, HoldsIn, HasIn};
ghost use Rattle.words.specs.Nodes.{HoldsBits, HasBit};
ghost use Rattle.tidy_rule.specs.Plan.{fits, renamed};
ghost use Rattle.tidy_rule.specs.Tidy.{tag, swap_nodes_lem, swap_colours_lem, settle, tidied};

use crate::tags::{renamed, tag_all, tag_of, untag_all};
use bitvec::{bit_at, put_bit};
use tree_rm::remove::copy_node;
use words::node::{child_of, entry_of, hull_at, parent_of, put_node};

// The nodes of slots i and j change places, all their words.
fn swap_nodes(nodes: &mut [u64], narrow: bool, i: u64, j: u64)
    requires { HasIn narrow nodes.old i × HasIn narrow nodes.old j }
    ensures { as_eight narrow nodes.new ≡ swap_nodes_lem (as_eight narrow nodes.old) i j }
{
    let e = entry_of(nodes, narrow, i);
    let h = hull_at(nodes, narrow, i);
    let left = child_of(nodes, narrow, i, true);
    let right = child_of(nodes, narrow, i, false);
    let up = parent_of(nodes, narrow, i);
    copy_node(nodes, narrow, j, i);
    put_node(nodes, narrow, j, e, h, left, right, up);
}

fn swap_colours(colours: &mut [u8], i: u64, j: u64)
    requires { HasBit colours.old i × HasBit colours.old j }
    ensures { colours.new ≡ swap_colours_lem colours.old i j }
{
    let a = bit_at(colours, i as usize);
    let b = bit_at(colours, j as usize);
    put_bit(colours, i as usize, b);
    put_bit(colours, j as usize, a);
}

// One turn at slot i: the node that stands there goes to its slot, or it is there. Returns the slot
// to go on with.
fn turn(nodes: &mut [u64], narrow: bool, colours: &mut [u8], count: u64, i: u64) -> u64
    requires { HoldsIn narrow nodes.old count × HoldsBits colours.old count × (i < count) }
    ensures { (result ≡ cond (eqb (tag (as_eight narrow nodes.old) i) i || gone count (tag (as_eight narrow nodes.old) i)) (i + 1) i)
        × (as_eight narrow nodes.new ≡ cond (eqb (tag (as_eight narrow nodes.old) i) i || gone count (tag (as_eight narrow nodes.old) i)) (as_eight narrow nodes.old) (swap_nodes_lem (as_eight narrow nodes.old) i (tag (as_eight narrow nodes.old) i)))
        × (colours.new ≡ cond (eqb (tag (as_eight narrow nodes.old) i) i || gone count (tag (as_eight narrow nodes.old) i)) colours.old (swap_colours_lem colours.old i (tag (as_eight narrow nodes.old) i))) }
{
    let j = tag_of(nodes, narrow, i);
    if (j == i) | (count <= j) {
        return i + 1;
    }
    swap_nodes(nodes, narrow, i, j);
    swap_colours(colours, i, j);
    i
}

// All turns, from slot 0 on.
fn settle_all(nodes: &mut [u64], narrow: bool, colours: &mut [u8], count: u64)
    requires { HoldsIn narrow nodes.old count × HoldsBits colours.old count }
    ensures { (as_eight narrow nodes.new ≡ (settle (count * 2) count 0 (as_eight narrow nodes.old) colours.old).words)
        × (colours.new ≡ (settle (count * 2) count 0 (as_eight narrow nodes.old) colours.old).colours) }
{
    let mut i = 0;
    for _ in 0..count * 2 {
        if count <= i {
            return;
        }
        i = turn(nodes, narrow, colours, count, i);
    }
}

// Moves every node, with its colour and its links, to the slot that the plan gives it. Returns the
// slot of the root then.
pub fn renumber_in(
    nodes: &mut [u64],
    narrow: bool,
    colours: &mut [u8],
    plan: &[u64],
    count: u64,
    root: u64,
) -> u64
    requires { HoldsIn narrow nodes.old count × HoldsBits colours.old count × (fits count plan.now ≡ true) }
    ensures { (result ≡ renamed count plan.now root)
        × (as_eight narrow nodes.new ≡ (tidied count plan.now (as_eight narrow nodes.old) colours.old).words)
        × (colours.new ≡ (tidied count plan.now (as_eight narrow nodes.old) colours.old).colours) }
{
    tag_all(nodes, narrow, plan, count);
    settle_all(nodes, narrow, colours, count);
    untag_all(nodes, narrow, count);
    renamed(plan, count, root)
}
