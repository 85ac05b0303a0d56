// The pieces of a tree in text.
use crate::note::Change;
use lines::output::send;
use lines::streams::Streams;
use slotshell_say::say;
use words::interval::Interval;
use words::node::Entry;

pub fn say_empty(streams: &Streams) {
    send(streams, b"no entries\n");
}

// The line of an upper node, if it goes past here.
pub fn say_bar(streams: &Streams, bar: bool) {
    if bar {
        send(streams, b"|  ");
    } else {
        send(streams, b"   ");
    }
}

// The corner at a node: its parent is drawn below it or above it.
pub fn say_corner(streams: &Streams, left_side: bool) {
    if left_side {
        send(streams, b".- ");
    } else {
        send(streams, b"'- ");
    }
}

pub fn say_slot(streams: &Streams, slot: u64, red: bool) {
    if red {
        say(streams, b"% red   ", &[slot]);
    } else {
        say(streams, b"% black ", &[slot]);
    }
}

pub fn say_entry(streams: &Streams, e: Entry) {
    say(streams, b"[%,%) %", &[e.start, e.end, e.value]);
}

pub fn say_hull(streams: &Streams, hull: Interval) {
    say(streams, b"  hull [%,%)", &[hull.start, hull.end]);
}

pub fn say_change(streams: &Streams, change: Change) {
    send(streams, b"  ");
    change.say(streams);
}

pub fn say_entered(streams: &Streams) {
    send(streams, b"  entered");
}

pub fn say_end(streams: &Streams) {
    send(streams, b"\n");
}
