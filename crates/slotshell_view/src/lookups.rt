// A lookup: whether its walk goes from a node to a child, which nodes it enters, and how many
// entries meet or touch its range.
ghost use Rattle.std.specs.Prelude.{◌≡◌, ◌+◌, ◌≤◌, ◌<◌, ◌^◌};
ghost use Rattle.words.specs.Intervals.{touches};
ghost use Rattle.image_rule.specs.Layout.{Bodies};
ghost use Rattle.slotshell_view.specs.View.{opens, leans, admitted, goes_in_lem, goes_shown, one, touching_below_lem, touching_shown, trail, noted, trail_below_lem, trail_beside_lem, trail_shown};

use crate::nodes::View;
use image::stored::interval_in;
use iter::rules::Query;
use words::interval::{Interval, Span, admits_start, reached_by};

// Whether a range opens a child's hull: on the left if the hull reaches the lower bound, on the
// right if the upper bound admits its start.
fn is_open(range: Span, hull: Interval, left_side: bool) -> bool
    ensures { result ≡ opens range left_side hull }
{
    if left_side {
        reached_by(range.lo, hull.end)
    } else {
        admits_start(range.hi, hull.start)
    }
}

// Whether equals of an interval can be on a side of an entry.
fn can_be(x: Interval, own: Interval, left_side: bool) -> bool
    ensures { result ≡ leans x left_side own }
{
    if left_side { x <= own } else { own <= x }
}

fn is_admitted(query: Query, own: Interval, hull: Interval, left_side: bool) -> bool
    ensures { result ≡ admitted query left_side own hull }
{
    match query {
        Query::Overlap(range) | Query::Ruled(_, range) => is_open(range, hull, left_side),
        Query::Exact(x) => can_be(x, own, left_side) & hull.contains(x),
    }
}

// Writes a slot to a place of a list, if there is room, and returns the next place.
fn note(out: &mut [u64], at: usize, slot: u64) -> usize
    ensures { trail out.new result ≡ noted (trail out.old at) slot }
{
    if at < out.len() {
        out[at] = slot;
        at + 1
    } else {
        at
    }
}

fn does_touch(range: Span, own: Interval) -> u64
    ensures { (result ≡ one (touches range own)) × (result ≤ 1) }
{
    u64::from(reached_by(range.lo, own.end) & admits_start(range.hi, own.start))
}

impl View<'_> {
    fn goes_in(self, query: Query, slot: u64, left_side: bool) -> bool
        requires { Bodies self.image.now self.count × (slot < self.count) }
        ensures { result ≡ goes_in_lem self.entry.image.now self.entry.count query left_side slot }
    {
        let child = self.child_in(slot, left_side);
        if self.count <= child {
            return false;
        }
        let own = interval_in(self.image, self.count, slot);
        is_admitted(query, own, self.hull_in(child), left_side)
    }

    // Whether the walk of a lookup that entered a slot goes on to its child on a side.
    pub fn goes(self, query: Query, slot: u64, left_side: bool) -> bool
        ensures { result ≡ goes_shown self.entry.image.now self.entry.count query left_side slot }
    {
        self.has(slot) && self.goes_in(query, slot, left_side)
    }

    // Writes the nodes that a walk enters on a side of a slot.
    #[cycle(trail_below_trail_beside)]
    fn trail_beside(
        self,
        query: Query,
        slot: u64,
        left_side: bool,
        height: u64,
        out: &mut [u64],
        at: usize,
    ) -> usize
        requires { Bodies self.image.now self.count × (slot < self.count) }
        ensures { trail out.new result ≡ trail_beside_lem self.entry.image.now self.entry.count query height left_side slot (trail out.old at) }
    {
        if self.goes_in(query, slot, left_side) {
            let child = self.child_in(slot, left_side);
            self.trail_below(query, child, height, out, at)
        } else {
            at
        }
    }

    // Writes the nodes that a walk enters from a link on, of at most `height` levels.
    #[cycle(trail_below_trail_beside)]
    fn trail_below(self, query: Query, link: u64, height: u64, out: &mut [u64], at: usize) -> usize
        requires { Bodies self.image.now self.count }
        ensures { trail out.new result ≡ trail_below_lem self.entry.image.now self.entry.count query height link (trail out.old at) }
    {
        if height == 0 {
            return at;
        }
        if self.count <= link {
            return at;
        }
        let here = note(out, at, link);
        let left = self.trail_beside(query, link, true, height - 1, out, here);
        self.trail_beside(query, link, false, height - 1, out, left)
    }

    // Writes the nodes that the walk of a lookup enters, from a slot on, in the order in which it
    // enters them, and returns how many it wrote: all, if there is room.
    pub fn trail_of(self, query: Query, from: u64, out: &mut [u64]) -> usize
        ensures { (result ≡ (trail_shown self.entry.image.now self.entry.count query from out.old).taken) × (out.new ≡ (trail_shown self.entry.image.now self.entry.count query from out.old).list) }
    {
        if self.has(from) {
            self.trail_below(query, from, 32, out, 0)
        } else {
            0
        }
    }

    // Returns how many entries below a link meet or touch a range, of at most `height` levels.
    fn touching_below(self, range: Span, link: u64, height: u64) -> u64
        requires { Bodies self.image.now self.count × (height ≤ 32) }
        ensures { (result ≡ touching_below_lem self.entry.image.now self.entry.count range height link) × (result < 2 ^ height) }
    {
        if height == 0 {
            return 0;
        }
        if self.count <= link {
            return 0;
        }
        let left = self.child_in(link, true);
        let right = self.child_in(link, false);
        let l = self.touching_below(range, left, height - 1);
        let r = self.touching_below(range, right, height - 1);
        let own = interval_in(self.image, self.count, link);
        l + (does_touch(range, own) + r)
    }

    // Returns how many entries of the map meet or touch a range.
    pub fn touching(self, range: Span) -> u64
        ensures { result ≡ touching_shown self.entry.image.now self.entry.count range self.entry.root }
    {
        if self.has(self.root) {
            self.touching_below(range, self.root, 32)
        } else {
            0
        }
    }
}
