// The tree in text, one node a line, from top to bottom in tree order. A left child is drawn above
// its parent, and a right child below it. If a line would be longer than 100 letters, a node takes
// two lines.
use crate::depth::{child, depth, is_left};
use crate::marks::Marks;
use crate::measures::{digits, if_there, longest_address, longest_value};
use crate::picture::{Note, Picture};
use lines::streams::Streams;
use slotshell_text::outline;
use slotshell_view::nodes::View;

const WIDEST: u64 = 100;

// The slot that is n links up.
fn above(view: View, slot: u64, n: u64) -> u64 {
    let mut at = slot;
    for _ in 0..n {
        at = view.parent(at);
    }
    at
}

// Writes the lines of upper nodes that go past a node. The line from an upper node's child to it
// goes past here if the way down turns there.
fn say_bars(p: Picture, slot: u64, depth: u64) {
    for n in (1..depth).rev() {
        let upper = above(p.view, slot, n);
        let lower = above(p.view, slot, n - 1);
        outline::say_bar(p.streams, is_left(p.view, upper) != is_left(p.view, lower));
    }
}

// Writes what is on the left of a node.
fn say_way(p: Picture, slot: u64, depth: u64) {
    say_bars(p, slot, depth);
    if 0 < depth {
        outline::say_corner(p.streams, is_left(p.view, slot));
    }
}

// Writes what is on the left of a node's second line: the lines to its parent and to its right
// child, if they go down from here.
fn say_way_below(p: Picture, slot: u64, depth: u64) {
    say_bars(p, slot, depth);
    if 0 < depth {
        outline::say_bar(p.streams, is_left(p.view, slot));
    }
    outline::say_bar(p.streams, child(p.view, slot, false).is_some());
}

fn say_note(streams: &Streams, note: Note) {
    if let Some(change) = note.change {
        outline::say_change(streams, change);
    }
    if note.entered {
        outline::say_entered(streams);
    }
    outline::say_end(streams);
}

// Writes a node, in two lines if lines are long.
fn say_node(p: Picture, long: bool, slot: u64) {
    let depth = depth(p.view, slot);
    say_way(p, slot, depth);
    outline::say_slot(p.streams, slot, p.view.is_red(slot));
    outline::say_entry(p.streams, p.view.entry_at(slot));
    if long {
        outline::say_end(p.streams);
        say_way_below(p, slot, depth);
    }
    outline::say_hull(p.streams, p.view.hull_at(slot));
    say_note(p.streams, p.note_at(slot));
}

// How wide the marks are: `  was slot 30` and `  entered`.
fn marks_width(marks: &Marks, slot: u64) -> u64 {
    let change = if_there(marks.has_change(), slot.saturating_add(11));
    change.saturating_add(if_there(marks.lookup.is_some(), 9))
}

// How wide a node's own words are in one line: its slot and colour, its range, value and hull.
fn node_width(slot: u64, address: u64, value: u64) -> u64 {
    address
        .saturating_mul(4)
        .saturating_add(slot)
        .saturating_add(value)
        .saturating_add(21)
}

// Whether a node's line may be too long.
fn is_long(view: View, marks: &Marks) -> bool {
    let way = view.height().saturating_sub(1).saturating_mul(3);
    let slot = digits(view.count);
    let node = node_width(slot, longest_address(view), longest_value(view));
    WIDEST
        < way
            .saturating_add(node)
            .saturating_add(marks_width(marks, slot))
}

// Writes the tree in text, with marks. The list `order` has the slots in tree order.
pub fn say_tree(streams: &Streams, view: View, marks: &Marks, order: &[u64]) {
    let entered = marks.entered(view);
    let p = Picture {
        streams,
        view,
        marks,
        entered: &entered,
    };
    if view.count == 0 {
        outline::say_empty(streams);
    }
    let long = is_long(view, marks);
    for &slot in order {
        say_node(p, long, slot);
    }
}
