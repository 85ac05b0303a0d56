// Unloading: the first entry that intersects a range goes, over and over, until none is left.
#![tactic(auto)]

ghost use Rattle.std.specs.Prelude.{◌≡◌, ◌<◌};
ghost use Rattle.words.specs.Layouts.{as_eight, HoldsIn};
ghost use Rattle.words.specs.Nodes.{HoldsBits};
ghost use Rattle.tree_edit.specs.Store.{store};
ghost use Rattle.tree_rm_rule.specs.Remove.{remove_rule};
ghost use Rattle.unload_rule.specs.Unload.{unload_rule_lem};

use first::first_met;
use tree_rm::remove::remove_at;
use words::interval::Span;

// How many entries are left, and where their root is.
#[derive(Clone, Copy)]
pub struct Left {
    pub count: u64,
    pub root: u64,
}

// Removes the entry of a slot. Returns the root then.
fn without(
    nodes: &mut [u64],
    narrow: bool,
    colours: &mut [u8],
    count: u64,
    root: u64,
    slot: u64,
) -> u64
    requires { HoldsIn narrow nodes.old count × HoldsBits colours.old count × (slot < count) }
    ensures { store (as_eight narrow nodes.new) colours.new result
        ≡ (remove_rule (as_eight narrow nodes.old) colours.old count root slot).store }
{
    let removed = remove_at(nodes, narrow, colours, count, root, slot);
    removed.root
}

// Removes every entry that intersects the range, always the first one in tree order.
pub fn unload_from(
    nodes: &mut [u64],
    narrow: bool,
    colours: &mut [u8],
    count: u64,
    root: u64,
    range: Span,
) -> Left
    requires { HoldsIn narrow nodes.old count × HoldsBits colours.old count }
    ensures { (store (as_eight narrow nodes.new) colours.new result.root
        ≡ (unload_rule_lem (as_eight narrow nodes.old) colours.old count root range).store)
        × (result.count ≡ (unload_rule_lem (as_eight narrow nodes.old) colours.old count root range).count) }
{
    let mut at = root;
    for gone in 0..count {
        let left = count - gone;
        let slot = first_met(nodes, narrow, left, at, range);
        if left <= slot {
            return Left {
                count: left,
                root: at,
            };
        }
        at = without(nodes, narrow, colours, left, at, slot);
    }
    Left { count: 0, root: at }
}
