// The test of a plan, by a bit for each slot: nothing that is lent is written.
ghost use Rattle.std.specs.Prelude.{◌≡◌, true, cond, not, ◌&&◌, ◌≤◌, ltb, length, replicate};
ghost use Rattle.words.specs.Nodes.{HoldsBits};
ghost use Rattle.bitvec.specs.Bits.{bit_at, set_bit};
ghost use Rattle.tidy_rule.specs.Plan.{fits};

use bitvec::{bit_at, put_bit};

// A bit for each of 65,535 slots, none of which is set.
fn no_marks() -> [u8; 8192]
    ensures { (result ≡ replicate 8192 0) × (8192 ≡ length result) }
{
    [0; 8192]
}

// Marks a slot. Returns whether it is below the count and was not marked before; if not, nothing
// is marked.
fn mark(marks: &mut [u8], count: u64, slot: u64) -> bool
    requires { HoldsBits marks.old count }
    ensures { (result ≡ ltb slot count && not (bit_at marks.old slot))
        × (marks.new ≡ cond result (set_bit marks.old slot true) marks.old) }
{
    if count <= slot {
        return false;
    }
    if bit_at(marks, slot as usize) {
        return false;
    }
    put_bit(marks, slot as usize, true);
    true
}

// Whether a plan has as many numbers as there are slots, and names each slot below the count once.
pub fn names_each(plan: &[u64], count: u64) -> bool
    requires { count ≤ 65535 }
    ensures { result ≡ fits count plan.now }
{
    if plan.len() as u64 != count {
        return false;
    }
    let mut marks = no_marks();
    for slot in plan {
        if !mark(&mut marks, count, *slot) {
            return false;
        }
    }
    true
}
