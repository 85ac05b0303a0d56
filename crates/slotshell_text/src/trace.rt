// The lines of a trace.
use lines::output::send;
use lines::streams::Streams;
use slotshell_say::{indent, say};
use words::interval::{Bound, Interval, Span};
use words::node::Entry;

// An entered node, and whether it is a hit, touches only, or is neither.
pub fn say_node(streams: &Streams, blanks: u64, slot: u64, e: Entry) {
    indent(streams, blanks);
    say(
        streams,
        b"slot %  [%,%) %",
        &[slot, e.start, e.end, e.value],
    );
}

pub fn say_hit(streams: &Streams) {
    send(streams, b": a hit");
}

pub fn say_touches(streams: &Streams) {
    send(streams, b": touches only");
}

pub fn say_neither(streams: &Streams) {
    send(streams, b": neither");
}

pub fn say_root(streams: &Streams) {
    send(streams, b"; entered as the root\n");
}

// A child's side of its parent, and its hull.
#[derive(Clone, Copy)]
pub struct Child {
    pub parent: u64,
    pub left_side: bool,
    pub hull: Interval,
}

impl Child {
    fn say(self, streams: &Streams) {
        if self.left_side {
            send(streams, b"left");
        } else {
            send(streams, b"right");
        }
        say(
            streams,
            b" of %: hull [%,%)",
            &[self.parent, self.hull.start, self.hull.end],
        );
    }
}

fn say_left(streams: &Streams, lo: Bound<u64>) {
    match lo {
        Bound::Included(x) | Bound::Excluded(x) => say(streams, b" ends at % or after\n", &[x]),
        Bound::Unbounded => send(streams, b", and there is no lower bound\n"),
    }
}

fn say_right(streams: &Streams, hi: Bound<u64>) {
    match hi {
        Bound::Included(x) => say(streams, b" starts at % or before\n", &[x]),
        Bound::Excluded(x) => say(streams, b" starts before %\n", &[x]),
        Bound::Unbounded => send(streams, b", and there is no upper bound\n"),
    }
}

// Why a child is entered: by its hull and the bound of its side.
pub fn say_why(streams: &Streams, range: Span, child: Child) {
    send(streams, b"; entered, ");
    child.say(streams);
    if child.left_side {
        say_left(streams, range.lo);
    } else {
        say_right(streams, range.hi);
    }
}

// No child is shut out by a bound that is not there.
fn say_before(streams: &Streams, lo: Bound<u64>) {
    match lo {
        Bound::Included(x) | Bound::Excluded(x) => say(streams, b" ends before %\n", &[x]),
        Bound::Unbounded => send(streams, b"\n"),
    }
}

fn say_after(streams: &Streams, hi: Bound<u64>) {
    match hi {
        Bound::Included(x) => say(streams, b" starts after %\n", &[x]),
        Bound::Excluded(x) => say(streams, b" does not start before %\n", &[x]),
        Bound::Unbounded => send(streams, b"\n"),
    }
}

// A child that is not entered, and the rule that shuts it out.
pub fn say_shut(streams: &Streams, range: Span, child: Child) {
    send(streams, b": not entered, ");
    child.say(streams);
    if child.left_side {
        say_before(streams, range.lo);
    } else {
        say_after(streams, range.hi);
    }
}

pub fn say_slot(streams: &Streams, blanks: u64, slot: u64) {
    indent(streams, blanks);
    say(streams, b"slot %", &[slot]);
}

// How many nodes the call entered, and how many this walk did.
pub fn say_count(streams: &Streams, hits: u64, entered: u64, walked: u64) {
    say(
        streams,
        b"hits %, nodes entered %; this walk entered %\n",
        &[hits, entered, walked],
    );
}
