// The pieces of a DOT picture. A missing child is a node that is not drawn, and another one is
// right below its parent, so that a child is drawn on its own side.
use crate::note::Change;
use lines::output::send;
use lines::streams::Streams;
use slotshell_say::say;
use words::interval::Interval;
use words::node::Entry;

pub fn say_head(streams: &Streams) {
    send(streams, b"digraph map {\n  graph [ordering=out];\n");
    send(
        streams,
        b"  node [shape=box, style=filled, fontname=monospace, fontcolor=white];\n",
    );
}

// The beginning of a node: its label, which is still open.
pub fn say_label(streams: &Streams, slot: u64, e: Entry) {
    say(
        streams,
        b"  s% [label=\"slot %\\n[%,%)\\nvalue %",
        &[slot, slot, e.start, e.end, e.value],
    );
}

pub fn say_hull(streams: &Streams, hull: Interval) {
    say(streams, b"\\nhull [%,%)", &[hull.start, hull.end]);
}

pub fn say_change(streams: &Streams, change: Change) {
    send(streams, b"\\n");
    change.say(streams);
}

pub fn say_entered(streams: &Streams) {
    send(streams, b"\\nentered");
}

fn say_colour(streams: &Streams, red: bool) {
    if red {
        send(streams, b"\", fillcolor=red3");
    } else {
        send(streams, b"\", fillcolor=black");
    }
}

// The end of a node. A changed entry has a thick border, and an entered node a dashed one.
pub fn say_box(streams: &Streams, red: bool, changed: bool, entered: bool) {
    say_colour(streams, red);
    if changed {
        send(streams, b", color=orange, penwidth=4");
    } else if entered {
        send(streams, b", color=dodgerblue, penwidth=3");
    }
    if entered {
        send(streams, b", style=\"filled,dashed\"");
    }
    send(streams, b"];\n");
}

pub fn say_edge(streams: &Streams, slot: u64, child: u64) {
    say(streams, b"  s% -> s%;\n", &[slot, child]);
}

fn say_side(streams: &Streams, left_side: bool) {
    if left_side {
        send(streams, b"left [style=invis];\n");
    } else {
        send(streams, b"right [style=invis];\n");
    }
}

// The link to a child that is missing.
pub fn say_gap(streams: &Streams, slot: u64, left_side: bool) {
    say(streams, b"  s%", &[slot]);
    say_side(streams, left_side);
    say(streams, b"  s% -> s%", &[slot, slot]);
    say_side(streams, left_side);
}

// The node right below a parent, between its children.
pub fn say_middle(streams: &Streams, slot: u64) {
    say(
        streams,
        b"  s%middle [style=invis, label=\"\", width=0.1];\n",
        &[slot],
    );
    say(
        streams,
        b"  s% -> s%middle [style=invis, weight=9];\n",
        &[slot, slot],
    );
}

pub fn say_end(streams: &Streams) {
    send(streams, b"}\n");
}
