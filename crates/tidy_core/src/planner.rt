// The planner: each slot's place in tree order, counted from 0.
ghost use Rattle.std.specs.Prelude.{◌≡◌, ◌≤◌, length};
ghost use Rattle.words.specs.Layouts.{as_eight, HoldsIn};
ghost use Rattle.tidy_rule.specs.Plan.{proposed};

use plain::{first_slot, next_slot};
use words::ix::slot_at;

// Writes the place of each slot in tree order into the slot's place of `out`.
pub fn number_all(nodes: &[u64], narrow: bool, count: u64, root: u64, out: &mut [u64])
    requires { HoldsIn narrow nodes.now count × (count ≤ length out.old) }
    ensures { out.new ≡ proposed count (as_eight narrow nodes.now) root out.old }
{
    let mut at = first_slot(nodes, narrow, count, root);
    for place in 0..count {
        let Some(slot) = slot_at(at, count) else {
            return;
        };
        out[slot as usize] = place;
        at = next_slot(nodes, narrow, count, slot);
    }
}
