// A node carries its new slot in its parent word, above the parent link's 16 bits.
ghost use Rattle.std.specs.Prelude.{◌≡◌, true, ◌<◌, ◌≤◌};
ghost use Rattle.words.specs.Layouts.{narrowed, widened, as_eight, up_fits_lem, HoldsIn, HasIn};
ghost use Rattle.tidy_rule.specs.Plan.{fits, renamed};
ghost use Rattle.tidy_rule.specs.Tidy.{with_tag, rename_kid, tag_node_lem, tagged, tag, untag_node_lem, untagged};

use words::ix::{U, slot_at};
use words::node::{child_of, parent_of, put_child, put_parent};

// Returns the bits of a parent word: below 65535 itself, and from U on counted from 65535. Between
// the two there is no such word.
fn narrowed(v: u64) -> u64
    ensures { result ≡ narrowed v }
{
    if v < 65535 {
        v
    } else if v < 4294901760 {
        0
    } else {
        v - 4294901760
    }
}

// Returns the parent word of 32 bits.
fn widened(k: u64) -> u64
    requires { k < 4294967296 }
    ensures { (result ≡ widened k) × (up_fits_lem true result ≡ true) }
{
    if k < 65535 { k } else { k + 4294901760 }
}

// Returns the parent word of a link and, above its 16 bits, a slot.
fn with_tag(link: u64, to: u64) -> u64
    requires { (narrowed link < 65536) × (to < 65535) }
    ensures { (result ≡ with_tag link to) × (up_fits_lem true result ≡ true) }
{
    widened(narrowed(link) + to * 65536)
}

// Returns a link word renamed by the plan: the new slot of the slot that it leads to, or U.
pub(crate) fn renamed(plan: &[u64], count: u64, word: u64) -> u64
    requires { (count ≤ 65535) × (fits count plan.now ≡ true) }
    ensures { result ≡ renamed count plan.now word }
{
    let Some(k) = slot_at(word, count) else {
        return U;
    };
    plan[k as usize]
}

fn rename_child(nodes: &mut [u64], narrow: bool, plan: &[u64], count: u64, s: u64, left_side: bool)
    requires { HoldsIn narrow nodes.old count × (fits count plan.now ≡ true) × (s < count) }
    ensures { as_eight narrow nodes.new ≡ rename_kid count plan.now (as_eight narrow nodes.old) left_side s }
{
    let word = renamed(plan, count, child_of(nodes, narrow, s, left_side));
    put_child(nodes, narrow, s, left_side, word);
}

// Renames the links of slot s, and writes its new slot above its parent link.
fn tag_node(nodes: &mut [u64], narrow: bool, plan: &[u64], count: u64, s: u64)
    requires { HoldsIn narrow nodes.old count × (fits count plan.now ≡ true) × (s < count) }
    ensures { as_eight narrow nodes.new ≡ tag_node_lem count plan.now (as_eight narrow nodes.old) s }
{
    rename_child(nodes, narrow, plan, count, s, true);
    rename_child(nodes, narrow, plan, count, s, false);
    let up = renamed(plan, count, parent_of(nodes, narrow, s));
    put_parent(nodes, narrow, s, with_tag(up, plan[s as usize]));
}

pub(crate) fn tag_all(nodes: &mut [u64], narrow: bool, plan: &[u64], count: u64)
    requires { HoldsIn narrow nodes.old count × (fits count plan.now ≡ true) }
    ensures { as_eight narrow nodes.new ≡ tagged count plan.now count (as_eight narrow nodes.old) }
{
    for s in 0..count {
        tag_node(nodes, narrow, plan, count, s);
    }
}

// Returns the slot that the node in slot s is to go to.
pub(crate) fn tag_of(nodes: &[u64], narrow: bool, s: u64) -> u64
    requires { HasIn narrow nodes.now s }
    ensures { result ≡ tag (as_eight narrow nodes.now) s }
{
    narrowed(parent_of(nodes, narrow, s)) / 65536
}

// Leaves slot s its parent link alone.
fn untag_node(nodes: &mut [u64], narrow: bool, s: u64)
    requires { HasIn narrow nodes.old s }
    ensures { as_eight narrow nodes.new ≡ untag_node_lem (as_eight narrow nodes.old) s }
{
    let up = parent_of(nodes, narrow, s);
    put_parent(nodes, narrow, s, widened(narrowed(up) % 65536));
}

pub(crate) fn untag_all(nodes: &mut [u64], narrow: bool, count: u64)
    requires { HoldsIn narrow nodes.old count }
    ensures { as_eight narrow nodes.new ≡ untagged count (as_eight narrow nodes.old) }
{
    for s in 0..count {
        untag_node(nodes, narrow, s);
    }
}
