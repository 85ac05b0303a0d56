// The entries that a removal moved to another slot.
#![tactic(auto)]

ghost use Rattle.std.specs.Prelude.{◌≡◌, cond, ◌<◌};
ghost use Rattle.tree_rm_rule.specs.Pairs.{none, moved_to, emptied, home, named, lower, upper, by_old_slot, moved};

use words::ix::{U, slot_at};
use words::pair::{Pair, Pairs};

// Returns the slot of the entry that was in `slot`, after the entry of `from` moved to `to`.
pub fn after_move(from: u64, to: u64, slot: u64) -> u64
    ensures { result ≡ moved_to from to slot }
{
    if slot == from { to } else { slot }
}

// Returns the slot that is emptied: the child's if there is a child, else `rm`.
fn emptied_slot(count: u64, rm: u64, child: u64) -> u64
    ensures { result ≡ emptied count rm child }
{
    let Some(child_ix) = slot_at(child, count) else {
        return rm;
    };
    child_ix
}

// Returns the slot that has the entry of `slot` at the end. The entry of rm moved to ix, then that
// of the child to rm, then that of the last slot to the emptied slot.
fn home_of(count: u64, last: u64, ix: u64, rm: u64, child: u64, slot: u64) -> u64
    ensures { result ≡ home count last ix rm child slot }
{
    let first = after_move(rm, ix, slot);
    let second = after_move(child, rm, first);
    after_move(last, emptied_slot(count, rm, child), second)
}

// Returns the pair of two slots, or (U, U) if they are equal. U is the undefined link.
fn pair_of(old: u64, new: u64) -> Pair
    ensures { result ≡ named old new }
{
    if old == new {
        Pair { old: U, new: U }
    } else {
        Pair { old, new }
    }
}

// Returns (U, U) if `skip` is true: there is no entry to name, or it is named already.
fn pair_unless(skip: bool, old: u64, new: u64) -> Pair
    ensures { result ≡ cond skip none (named old new) }
{
    if skip {
        Pair { old: U, new: U }
    } else {
        pair_of(old, new)
    }
}

fn lower_of(p: Pair, q: Pair) -> Pair
    ensures { result ≡ lower p q }
{
    if q.old < p.old { q } else { p }
}

fn upper_of(p: Pair, q: Pair) -> Pair
    ensures { result ≡ upper p q }
{
    if q.old < p.old { p } else { q }
}

// Sorts the pairs by old slot. U is above every slot.
fn sorted_pairs(p: Pair, q: Pair, o: Pair) -> Pairs
    ensures { result ≡ by_old_slot p q o }
{
    let low = lower_of(p, q);
    let high = upper_of(p, q);
    let third = upper_of(high, o);
    let middle = lower_of(high, o);
    let first = lower_of(low, middle);
    let second = upper_of(low, middle);
    Pairs {
        first,
        second,
        third,
    }
}

// Returns the pairs of a removal: the entry of slot ix was removed, and slot rm was vacated for it.
// The entries that may have moved are those of rm, of its child, and of the last slot if it is not
// one of the others.
pub fn moved_pairs(count: u64, last: u64, ix: u64, rm: u64, child: u64) -> Pairs
    ensures { result ≡ moved count last ix rm child }
{
    let p = pair_unless(rm == ix, rm, home_of(count, last, ix, rm, child, rm));
    let q = pair_unless(
        count <= child,
        child,
        home_of(count, last, ix, rm, child, child),
    );
    let known = (last == ix) | (last == rm) | (last == child);
    let o = pair_unless(known, last, home_of(count, last, ix, rm, child, last));
    sorted_pairs(p, q, o)
}
