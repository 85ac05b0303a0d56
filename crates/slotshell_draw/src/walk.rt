// The walk of a lookup, one line a node: down to the left, then down to the right.
use crate::depth::{HIGHEST, child, is_left, parent};
use crate::lists::slot_space;
use iter::rules::Query;
use lines::streams::Streams;
use slotshell_text::trace;
use slotshell_text::trace::Child;
use slotshell_view::nodes::View;
use words::interval::{Span, admits_start, passed_by, reached_by};
use words::node::Entry;

// A walk: the view of the map, the range that is looked up, and where its lines go.
#[derive(Clone, Copy)]
struct Walk<'a> {
    streams: &'a Streams,
    view: View<'a>,
    range: Span,
}

impl Walk<'_> {
    // Writes whether an entry is a hit.
    fn say_kind(self, e: Entry) {
        let starts = admits_start(self.range.hi, e.start);
        if starts && passed_by(self.range.lo, e.end) {
            trace::say_hit(self.streams);
        } else if starts && reached_by(self.range.lo, e.end) {
            trace::say_touches(self.streams);
        } else {
            trace::say_neither(self.streams);
        }
    }

    // Writes why a node is entered.
    fn say_why(self, slot: u64) {
        match parent(self.view, slot) {
            Some(parent) => trace::say_why(
                self.streams,
                self.range,
                Child {
                    parent,
                    left_side: is_left(self.view, slot),
                    hull: self.view.hull_at(slot),
                },
            ),
            None => trace::say_root(self.streams),
        }
    }

    fn say_entered(self, slot: u64, depth: u64) {
        let e = self.view.entry_at(slot);
        trace::say_node(self.streams, depth.saturating_mul(2), slot, e);
        self.say_kind(e);
        self.say_why(slot);
    }

    // Writes why a child is not entered.
    fn say_shut(self, slot: u64, left_side: bool, child: u64, depth: u64) {
        trace::say_slot(self.streams, depth.saturating_mul(2), child);
        trace::say_shut(
            self.streams,
            self.range,
            Child {
                parent: slot,
                left_side,
                hull: self.view.hull_at(child),
            },
        );
    }

    // Writes the walk on a side of a slot, or why the child there is not entered.
    #[cycle(say_below_say_beside)]
    fn say_beside(self, slot: u64, left_side: bool, depth: u64) {
        let Some(child) = child(self.view, slot, left_side) else {
            return;
        };
        if self.view.goes(Query::Overlap(self.range), slot, left_side) {
            self.say_below(child, depth);
        } else {
            self.say_shut(slot, left_side, child, depth);
        }
    }

    // Writes the walk from a slot on, which is `depth` links below the root: its line, and then
    // what is on each side.
    #[cycle(say_below_say_beside)]
    fn say_below(self, slot: u64, depth: u64) {
        if depth < HIGHEST {
            self.say_entered(slot, depth);
            self.say_beside(slot, true, depth + 1);
            self.say_beside(slot, false, depth + 1);
        }
    }
}

// Writes each node that a lookup enters, why, and what it is; and each child that it does not
// enter, with the rule that shuts it out. Then it writes hits and entered nodes as the call
// returned them, and how many nodes this walk entered.
pub fn say_walk(streams: &Streams, view: View, range: Span, hits: u64, entered: u64) {
    let walk = Walk {
        streams,
        view,
        range,
    };
    let mut trail = slot_space();
    let n = view.trail_of(Query::Overlap(range), view.root, &mut trail);
    if view.root < view.count {
        walk.say_below(view.root, 0);
    }
    trace::say_count(streams, hits, entered, n as u64);
}
