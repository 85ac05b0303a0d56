// A table of the slots.
use crate::depth::{child, parent};
use crate::measures::digits;
use lines::streams::Streams;
use slotshell_text::table;
use slotshell_view::nodes::View;
use words::interval::Interval;

// How wide the columns are whose numbers may be long.
#[derive(Clone, Copy)]
struct Widths {
    start: u64,
    end: u64,
    value: u64,
    hull: u64,
}

fn hull_width(hull: Interval) -> u64 {
    digits(hull.start)
        .saturating_add(digits(hull.end))
        .saturating_add(3)
}

impl Widths {
    // The widths of all slots, and of the names above them.
    fn new(view: View) -> Widths {
        let mut w = Widths {
            start: 5,
            end: 3,
            value: 5,
            hull: 4,
        };
        for slot in 0..view.count {
            w = w.with_slot(view, slot);
        }
        w
    }

    // The widths with one more slot.
    fn with_slot(self, view: View, slot: u64) -> Widths {
        let e = view.entry_at(slot);
        Widths {
            start: digits(e.start).max(self.start),
            end: digits(e.end).max(self.end),
            value: digits(e.value).max(self.value),
            hull: hull_width(view.hull_at(slot)).max(self.hull),
        }
    }
}

// The blanks before something of a width at the right of a column.
fn blanks(column: u64, width: u64) -> u64 {
    column.saturating_add(1).saturating_sub(width)
}

fn say_cell(streams: &Streams, column: u64, x: u64) {
    table::say_cell(streams, blanks(column, digits(x)), x);
}

fn say_link(streams: &Streams, column: u64, slot: Option<u64>) {
    match slot {
        Some(slot) => say_cell(streams, column, slot),
        None => table::say_no_link(streams, column),
    }
}

fn say_head(streams: &Streams, w: Widths) {
    table::say_head(
        streams,
        w.start.saturating_sub(4),
        w.end.saturating_sub(2),
        w.value.saturating_sub(4),
        w.hull.saturating_sub(3),
    );
}

fn say_row(streams: &Streams, w: Widths, view: View, slot: u64) {
    let e = view.entry_at(slot);
    let hull = view.hull_at(slot);
    say_cell(streams, 3, slot);
    say_cell(streams, w.start, e.start);
    say_cell(streams, w.end, e.end);
    say_cell(streams, w.value, e.value);
    table::say_colour(streams, view.is_red(slot));
    table::say_hull(streams, blanks(w.hull, hull_width(hull)), hull);
    say_link(streams, 4, child(view, slot, true));
    say_link(streams, 5, child(view, slot, false));
    say_link(streams, 6, parent(view, slot));
    table::say_end(streams);
}

// Writes the table.
pub fn say_table(streams: &Streams, view: View) {
    let w = Widths::new(view);
    say_head(streams, w);
    for slot in 0..view.count {
        say_row(streams, w, view, slot);
    }
}
