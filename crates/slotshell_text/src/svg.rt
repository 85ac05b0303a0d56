// The pieces of an SVG picture.
use crate::note::Change;
use lines::output::send;
use lines::streams::Streams;
use slotshell_say::say;
use words::interval::Interval;

fn say_style(streams: &Streams) {
    let pieces: [&[u8]; 5] = [
        b"<style>text{font:12px monospace;text-anchor:middle;fill:#fff}",
        b".t{font-weight:bold}.s{font-size:10px}.k{fill:#000;text-anchor:start}",
        b".r{fill:#c62828}.b{fill:#212121}.e{stroke:#757575;stroke-width:2}",
        b".m{fill:none;stroke:#ffb300;stroke-width:5}",
        b".l{fill:none;stroke:#1e88e5;stroke-width:3;stroke-dasharray:7 4}</style>\n",
    ];
    for piece in pieces {
        send(streams, piece);
    }
}

// The beginning of a picture, with a line about the map.
pub fn say_head(streams: &Streams, width: u64, height: u64, count: u64, root: u64, version: u32) {
    say(
        streams,
        b"<svg xmlns='http://www.w3.org/2000/svg' width='%' height='%' viewBox='0 0 % %'>\n",
        &[width, height, width, height],
    );
    say_style(streams);
    say(
        streams,
        b"<rect width='%' height='%' fill='#fff'/>\n",
        &[width, height],
    );
    say(
        streams,
        b"<text class='k' x='24' y='30'>entries %, root @, version %</text>\n",
        &[count, root, version as u64],
    );
}

// A place in a picture: x across, and y down.
#[derive(Clone, Copy)]
pub struct Point {
    pub x: u64,
    pub y: u64,
}

// The left upper corner of a box, and its size.
#[derive(Clone, Copy)]
pub struct Rect {
    pub x: u64,
    pub y: u64,
    pub width: u64,
    pub height: u64,
}

pub fn say_edge(streams: &Streams, from: Point, to: Point) {
    say(
        streams,
        b"<line class='e' x1='%' y1='%' x2='%' y2='%'/>\n",
        &[from.x, from.y, to.x, to.y],
    );
}

fn say_size(streams: &Streams, r: Rect) {
    say(
        streams,
        b" x='%' y='%' width='%' height='%' rx='8'/>\n",
        &[r.x, r.y, r.width, r.height],
    );
}

// A box, and the borders that may be drawn on it: a thick one for a changed entry, and a dashed one
// for an entered node.
pub fn say_box(streams: &Streams, red: bool, r: Rect) {
    if red {
        send(streams, b"<rect class='r'");
    } else {
        send(streams, b"<rect class='b'");
    }
    say_size(streams, r);
}

pub fn say_thick(streams: &Streams, r: Rect) {
    send(streams, b"<rect class='m'");
    say_size(streams, r);
}

pub fn say_dashed(streams: &Streams, r: Rect) {
    send(streams, b"<rect class='l'");
    say_size(streams, r);
}

// The lines in a box: `at` is the middle of the line.
pub fn say_slot(streams: &Streams, at: Point, slot: u64) {
    say(
        streams,
        b"<text class='t' x='%' y='%'>slot %</text>\n",
        &[at.x, at.y, slot],
    );
}

pub fn say_range(streams: &Streams, at: Point, range: Interval) {
    say(
        streams,
        b"<text x='%' y='%'>[%,%)</text>\n",
        &[at.x, at.y, range.start, range.end],
    );
}

// A range in two lines, whose second is on the height `below`.
pub fn say_long_range(streams: &Streams, at: Point, below: u64, range: Interval) {
    say(
        streams,
        b"<text x='%' y='%'>[%,</text>\n",
        &[at.x, at.y, range.start],
    );
    say(
        streams,
        b"<text x='%' y='%'>%)</text>\n",
        &[at.x, below, range.end],
    );
}

pub fn say_value(streams: &Streams, at: Point, value: u64) {
    say(
        streams,
        b"<text x='%' y='%'>value %</text>\n",
        &[at.x, at.y, value],
    );
}

pub fn say_hull(streams: &Streams, at: Point, hull: Interval) {
    say(
        streams,
        b"<text class='s' x='%' y='%'>hull [%,%)</text>\n",
        &[at.x, at.y, hull.start, hull.end],
    );
}

pub fn say_long_hull(streams: &Streams, at: Point, below: u64, hull: Interval) {
    say(
        streams,
        b"<text class='s' x='%' y='%'>hull [%,</text>\n",
        &[at.x, at.y, hull.start],
    );
    say(
        streams,
        b"<text class='s' x='%' y='%'>%)</text>\n",
        &[at.x, below, hull.end],
    );
}

pub fn say_change(streams: &Streams, at: Point, change: Change) {
    say(streams, b"<text class='s' x='%' y='%'>", &[at.x, at.y]);
    change.say(streams);
    send(streams, b"</text>\n");
}

pub fn say_entered(streams: &Streams, at: Point) {
    say(
        streams,
        b"<text class='s' x='%' y='%'>entered</text>\n",
        &[at.x, at.y],
    );
}

// What the borders mean.
pub fn say_thick_means(streams: &Streams, y: u64) {
    say(
        streams,
        b"<text class='k' x='24' y='%'>thick border: moved or new in the last change</text>\n",
        &[y],
    );
}

pub fn say_dashed_means(streams: &Streams, y: u64) {
    say(
        streams,
        b"<text class='k' x='24' y='%'>dashed border: entered by the last lookup</text>\n",
        &[y],
    );
}

pub fn say_end(streams: &Streams) {
    send(streams, b"</svg>\n");
}
