// The pass over the slots after the check of the store. It tests each slot with its two links: what
// is left of it ends at or before its start, and what is right of it starts at or past its end.
ghost use Rattle.std.specs.Prelude.{◌≡◌, ◌<◌};
ghost use Rattle.words.specs.Layouts.{as_eight, HoldsIn};
ghost use Rattle.disjoint_rule.specs.Apart.{apart_left, apart_right, apart_at, apart_below};

use words::ix::slot_at;
use words::node::{child_of, end_of, hull_end_of, hull_start_of, start_of};

// Whether what is left of a slot ends at or before its start.
fn ends_left(nodes: &[u64], narrow: bool, count: u64, slot: u64) -> bool
    requires { HoldsIn narrow nodes.now count × (slot < count) }
    ensures { result ≡ apart_left (as_eight narrow nodes.now) count slot }
{
    let Some(left) = slot_at(child_of(nodes, narrow, slot, true), count) else {
        return true;
    };
    hull_end_of(nodes, narrow, left) <= start_of(nodes, narrow, slot)
}

// Whether what is right of a slot starts at or past its end.
fn starts_right(nodes: &[u64], narrow: bool, count: u64, slot: u64) -> bool
    requires { HoldsIn narrow nodes.now count × (slot < count) }
    ensures { result ≡ apart_right (as_eight narrow nodes.now) count slot }
{
    let Some(right) = slot_at(child_of(nodes, narrow, slot, false), count) else {
        return true;
    };
    end_of(nodes, narrow, slot) <= hull_start_of(nodes, narrow, right)
}

// Both tests of a slot.
fn is_apart(nodes: &[u64], narrow: bool, count: u64, slot: u64) -> bool
    requires { HoldsIn narrow nodes.now count × (slot < count) }
    ensures { result ≡ apart_at (as_eight narrow nodes.now) count slot }
{
    ends_left(nodes, narrow, count, slot) & starts_right(nodes, narrow, count, slot)
}

// Whether every slot below the count passes the test. On a store that passes the check of crate
// audit this says that no two entries intersect.
pub fn all_apart(nodes: &[u64], narrow: bool, count: u64) -> bool
    requires { HoldsIn narrow nodes.now count }
    ensures { result ≡ apart_below (as_eight narrow nodes.now) count count }
{
    for slot in (0..count).rev() {
        if !is_apart(nodes, narrow, count, slot) {
            return false;
        }
    }
    true
}
