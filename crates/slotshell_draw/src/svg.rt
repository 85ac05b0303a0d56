// The tree as an SVG picture. A node is placed across by its place in tree order, and down by its
// depth. Two neighbours in tree order are never equally deep, so boxes of one row are at least two
// places apart, and a place is half a box wide.
use crate::depth::{depth, parent};
use crate::marks::Marks;
use crate::measures::{if_there, longest_address, longest_value};
use crate::picture::{Note, Picture};
use lines::streams::Streams;
use slotshell_text::svg;
use slotshell_text::svg::{Point, Rect};
use slotshell_view::nodes::View;
use words::interval::Interval;

// The room around the picture, above it for the line of the map, and between two rows.
const MARGIN: u64 = 24;

const TOP: u64 = 56;

const GAP: u64 = 44;

// The measures of a picture: how wide and how high a box is, how far two places are apart, whether
// a range takes two lines, and whether there is a line for changes and for lookups. The list
// `order` has the slots in tree order.
#[derive(Clone, Copy)]
struct Sheet<'a> {
    width: u64,
    height: u64,
    place: u64,
    long: bool,
    changed: bool,
    looked: bool,
    order: &'a [u64],
}

// How wide a box is: for the letters of a range, of a value, of a hull and of `was slot 255`.
fn box_width(address: u64, value: u64, long: bool) -> u64 {
    let number = value.saturating_add(6).saturating_mul(8);
    if long {
        let range = address.saturating_add(6).saturating_mul(8);
        return range.max(number).saturating_add(16);
    }
    let both = address.saturating_mul(2);
    let range = both.saturating_add(3).saturating_mul(8);
    let hull = both.saturating_add(8).saturating_mul(6);
    range.max(hull).max(number).max(80).saturating_add(16)
}

fn box_height(long: bool, changed: bool, looked: bool) -> u64 {
    76 + if_there(long, 29) + if_there(changed, 14) + if_there(looked, 14)
}

// A height that is lower down in the picture.
fn below(y: u64, by: u64) -> u64 {
    y.saturating_add(by)
}

fn under(at: Point, by: u64) -> Point {
    Point {
        x: at.x,
        y: below(at.y, by),
    }
}

impl<'a> Sheet<'a> {
    fn new(view: View, marks: &Marks, order: &'a [u64]) -> Sheet<'a> {
        let address = longest_address(view);
        let long = 8 < address;
        let width = box_width(address, longest_value(view), long);
        let changed = marks.has_change();
        let looked = marks.lookup.is_some();
        Sheet {
            width,
            height: box_height(long, changed, looked),
            place: width.saturating_add(24) / 2,
            long,
            changed,
            looked,
            order,
        }
    }

    // The upper edge of a row.
    fn down(self, depth: u64) -> u64 {
        let row = self.height.saturating_add(GAP);
        row.saturating_mul(depth).saturating_add(TOP)
    }

    // The middle of a slot's upper edge. A slot is placed by tree order.
    fn top_of(self, view: View, slot: u64) -> Point {
        let place = self.order.iter().position(|it| *it == slot);
        let i = place.unwrap_or(self.order.len()) as u64;
        Point {
            x: i.saturating_mul(self.place)
                .saturating_add(self.width / 2)
                .saturating_add(MARGIN),
            y: self.down(depth(view, slot)),
        }
    }

    // How wide the picture is: at least as wide as its legend.
    fn whole_width(self) -> u64 {
        let places = (self.order.len() as u64).saturating_sub(1);
        places
            .saturating_mul(self.place)
            .saturating_add(self.width)
            .saturating_add(2 * MARGIN)
            .max(400)
    }

    // The box whose upper edge has its middle there.
    fn box_at(self, top: Point) -> Rect {
        Rect {
            x: top.x.saturating_sub(self.width / 2),
            y: top.y,
            width: self.width,
            height: self.height,
        }
    }
}

// Writes what the borders mean, below the rows.
fn say_legend(streams: &Streams, s: Sheet, bottom: u64) {
    if s.changed {
        svg::say_thick_means(streams, bottom);
    }
    if s.looked {
        svg::say_dashed_means(streams, below(bottom, if_there(s.changed, 18)));
    }
}

// The line from a slot to its parent.
fn say_edge(p: Picture, s: Sheet, slot: u64) {
    let Some(up) = parent(p.view, slot) else {
        return;
    };
    let to = s.top_of(p.view, slot);
    let from = Point {
        x: s.top_of(p.view, up).x,
        y: to.y.saturating_sub(GAP),
    };
    svg::say_edge(p.streams, from, to);
}

// The box of an entered node's dashed border.
fn around(r: Rect) -> Rect {
    Rect {
        x: r.x.saturating_sub(7),
        y: r.y.saturating_sub(7),
        width: r.width.saturating_add(14),
        height: r.height.saturating_add(14),
    }
}

fn say_borders(streams: &Streams, r: Rect, note: Note) {
    if note.change.is_some() {
        svg::say_thick(streams, r);
    }
    if note.entered {
        svg::say_dashed(streams, around(r));
    }
}

// Writes a range in one line or two, and returns where the next line is.
fn say_range(streams: &Streams, long: bool, at: Point, range: Interval) -> Point {
    if long {
        svg::say_long_range(streams, at, below(at.y, 16), range);
        under(at, 32)
    } else {
        svg::say_range(streams, at, range);
        under(at, 16)
    }
}

fn say_hull(streams: &Streams, long: bool, at: Point, hull: Interval) -> Point {
    if long {
        svg::say_long_hull(streams, at, below(at.y, 13), hull);
        under(at, 27)
    } else {
        svg::say_hull(streams, at, hull);
        under(at, 14)
    }
}

// Writes the lines about the last change and the last lookup.
fn say_note(streams: &Streams, at: Point, note: Note) {
    if let Some(change) = note.change {
        svg::say_change(streams, at, change);
    }
    if note.entered {
        svg::say_entered(streams, under(at, if_there(note.change.is_some(), 14)));
    }
}

// Writes the lines in a slot's box.
fn say_lines(p: Picture, s: Sheet, top: Point, slot: u64) {
    let e = p.view.entry_at(slot);
    let range = Interval {
        start: e.start,
        end: e.end,
    };
    svg::say_slot(p.streams, under(top, 18), slot);
    let value = say_range(p.streams, s.long, under(top, 34), range);
    svg::say_value(p.streams, value, e.value);
    let hull = p.view.hull_at(slot);
    let note = say_hull(p.streams, s.long, under(value, 15), hull);
    say_note(p.streams, note, p.note_at(slot));
}

fn say_node(p: Picture, s: Sheet, slot: u64) {
    let top = s.top_of(p.view, slot);
    let r = s.box_at(top);
    svg::say_box(p.streams, p.view.is_red(slot), r);
    say_borders(p.streams, r, p.note_at(slot));
    say_lines(p, s, top, slot);
}

fn say_head(p: Picture, s: Sheet, version: u32, bottom: u64) {
    let notes = if_there(s.changed, 18) + if_there(s.looked, 18);
    svg::say_head(
        p.streams,
        s.whole_width(),
        below(bottom, notes),
        p.view.count,
        p.view.root,
        version,
    );
}

// Writes the tree as an SVG picture, with marks. The list `order` has the slots in tree order.
pub fn say_svg(streams: &Streams, view: View, version: u32, marks: &Marks, order: &[u64]) {
    let entered = marks.entered(view);
    let p = Picture {
        streams,
        view,
        marks,
        entered: &entered,
    };
    let s = Sheet::new(view, marks, order);
    let bottom = s.down(view.height());
    say_head(p, s, version, bottom);
    for slot in 0..view.count {
        say_edge(p, s, slot);
    }
    for slot in 0..view.count {
        say_node(p, s, slot);
    }
    say_legend(streams, s, bottom);
    svg::say_end(streams);
}
