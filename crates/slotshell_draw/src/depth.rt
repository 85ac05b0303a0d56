// Where a slot is in the tree: its neighbours, how deep it is, and on which side of its parent.
use slotshell_view::nodes::View;
use words::ix::slot_at;

// How far the links are followed. No tree of the map is higher.
pub(crate) const HIGHEST: u64 = 32;

pub(crate) fn child(view: View, slot: u64, left_side: bool) -> Option<u64> {
    slot_at(view.child(slot, left_side), view.count)
}

pub(crate) fn parent(view: View, slot: u64) -> Option<u64> {
    slot_at(view.parent(slot), view.count)
}

// How many links there are from a slot up to the root.
pub(crate) fn depth(view: View, slot: u64) -> u64 {
    let mut at = slot;
    for n in 0..HIGHEST {
        let Some(up) = parent(view, at) else {
            return n;
        };
        at = up;
    }
    HIGHEST
}

// Whether a slot is a left child.
pub(crate) fn is_left(view: View, slot: u64) -> bool {
    view.child(view.parent(slot), true) == slot
}
