// The tree as a DOT picture.
use crate::depth::child;
use crate::marks::Marks;
use crate::picture::{Note, Picture};
use lines::streams::Streams;
use slotshell_text::dot;
use slotshell_view::nodes::View;

fn say_note(streams: &Streams, note: Note) {
    if let Some(change) = note.change {
        dot::say_change(streams, change);
    }
    if note.entered {
        dot::say_entered(streams);
    }
}

fn say_node(p: Picture, slot: u64) {
    let note = p.note_at(slot);
    dot::say_label(p.streams, slot, p.view.entry_at(slot));
    dot::say_hull(p.streams, p.view.hull_at(slot));
    say_note(p.streams, note);
    dot::say_box(
        p.streams,
        p.view.is_red(slot),
        note.change.is_some(),
        note.entered,
    );
}

fn say_link(p: Picture, slot: u64, left_side: bool) {
    match child(p.view, slot, left_side) {
        Some(child) => dot::say_edge(p.streams, slot, child),
        None => dot::say_gap(p.streams, slot, left_side),
    }
}

// Writes the links of a slot that has a child.
fn say_links(p: Picture, slot: u64) {
    if child(p.view, slot, true).is_some() || child(p.view, slot, false).is_some() {
        say_link(p, slot, true);
        dot::say_middle(p.streams, slot);
        say_link(p, slot, false);
    }
}

// Writes the tree as a DOT picture, with marks.
pub fn say_dot(streams: &Streams, view: View, marks: &Marks) {
    let entered = marks.entered(view);
    let p = Picture {
        streams,
        view,
        marks,
        entered: &entered,
    };
    dot::say_head(streams);
    for slot in 0..view.count {
        say_node(p, slot);
        say_links(p, slot);
    }
    dot::say_end(streams);
}
