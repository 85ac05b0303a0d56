// The pieces of a table of slots. Each cell is given the number of blanks before it.
use lines::output::send;
use lines::streams::Streams;
use slotshell_say::{indent, say};
use words::interval::Interval;

// The names of the columns. The numbers are the blanks before start, end, value and hull.
pub fn say_head(streams: &Streams, start: u64, end: u64, value: u64, hull: u64) {
    send(streams, b"slot");
    indent(streams, start);
    send(streams, b"start");
    indent(streams, end);
    send(streams, b"end");
    indent(streams, value);
    send(streams, b"value colour");
    indent(streams, hull);
    send(streams, b"hull left right parent\n");
}

pub fn say_cell(streams: &Streams, blanks: u64, x: u64) {
    indent(streams, blanks);
    say(streams, b"%", &[x]);
}

// The cell of a link that leads nowhere.
pub fn say_no_link(streams: &Streams, blanks: u64) {
    indent(streams, blanks);
    send(streams, b"-");
}

pub fn say_colour(streams: &Streams, red: bool) {
    if red {
        send(streams, b" red   ");
    } else {
        send(streams, b" black ");
    }
}

pub fn say_hull(streams: &Streams, blanks: u64, hull: Interval) {
    indent(streams, blanks);
    say(streams, b"[%,%)", &[hull.start, hull.end]);
}

pub fn say_end(streams: &Streams) {
    send(streams, b"\n");
}
