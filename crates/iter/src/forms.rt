// The forms of a cursor, judged against the present store.
ghost use Rattle.std.specs.Prelude.{◌≡◌, ◌&&◌, ◌-◌, ◌*◌, ◌/◌, ◌^◌, ◌≤◌, ◌<◌, eqb};
ghost use Rattle.words.specs.Layouts.{as_eight, HoldsIn, HasIn};
ghost use Rattle.stack.specs.States.{returned};
ghost use Rattle.iter.specs.Cursors.{fresh, ended};
ghost use Rattle.iter.specs.Forms.{same, on_side, formed, held_form, form_of};
ghost use Rattle.iter.specs.Places.{Live};

use crate::{Cursor, Form};
use stack::{ActionStack, RETURNED, WAS_LEFT, WAS_RIGHT, state_at};
use words::ix::U;
use words::node::{child_of, parent_of};

// Returns the bits of a number from a level's bits up.
fn from_level(bits: u64, level: u64) -> u64
    requires { level < 32 }
    ensures { result ≡ bits / 4 ^ level }
{
    bits >> (2 * level)
}

// Whether the slot is the child of `parent` on the side that the state says.
fn is_on_side(nodes: &[u64], narrow: bool, state: u64, parent: u64, slot: u64) -> bool
    requires { HasIn narrow nodes.now parent }
    ensures { result ≡ on_side (as_eight narrow nodes.now) state parent slot }
{
    let left = child_of(nodes, narrow, parent, true);
    let right = child_of(nodes, narrow, parent, false);
    ((state == WAS_LEFT) & (left == slot)) | ((state == WAS_RIGHT) & (right == slot))
}

// Whether `start` is `links` links up from the slot, and each level says on which side the way goes
// down.
fn is_way(
    nodes: &[u64],
    narrow: bool,
    count: u64,
    start: u64,
    bits: u64,
    links: u64,
    slot: u64,
) -> bool
    requires { HoldsIn narrow nodes.now count × (slot < count) × (links ≤ 32) }
    ensures { result ≡ formed (as_eight narrow nodes.now) count start bits links slot }
{
    if links == 0 {
        return slot == start;
    }
    let parent = parent_of(nodes, narrow, slot);
    if count <= parent {
        return false;
    }
    if is_on_side(nodes, narrow, state_at(bits, links - 1), parent, slot) {
        is_way(nodes, narrow, count, start, bits, links - 1, parent)
    } else {
        false
    }
}

impl Cursor {
    pub fn fresh(slot: u64) -> Cursor
        ensures { result ≡ fresh slot }
    {
        let stack = ActionStack::new();
        Cursor {
            slot,
            levels: stack.levels,
            bits: stack.bits,
        }
    }

    pub fn ended() -> Cursor
        ensures { result ≡ ended }
    {
        Cursor {
            slot: U,
            levels: 0,
            bits: 0,
        }
    }

    fn is_same(self, slot: u64, levels: u64, bits: u64) -> bool
        ensures { result ≡ same slot levels bits self }
    {
        (self.slot == slot) & ((self.levels == levels) & (self.bits == bits))
    }

    // Whether the top level is 10, returned, with nothing above it, and the levels below say the
    // way from `start`.
    fn is_reached(self, nodes: &[u64], narrow: bool, count: u64, start: u64) -> bool
        requires { HoldsIn narrow nodes.now count × Live count self }
        ensures { result ≡ eqb (self.bits / 4 ^ (self.levels - 1)) returned
            && formed (as_eight narrow nodes.now) count start self.bits (self.levels - 1) self.slot }
    {
        let links = self.levels - 1;
        (from_level(self.bits, links) == RETURNED)
            & is_way(nodes, narrow, count, start, self.bits, links, self.slot)
    }

    fn is_held(self, nodes: &[u64], narrow: bool, count: u64, start: u64) -> bool
        requires { HoldsIn narrow nodes.now count }
        ensures { result ≡ held_form (as_eight narrow nodes.now) count start self }
    {
        if count <= self.slot {
            return false;
        }
        if self.levels == 0 {
            return false;
        }
        if self.levels > 32 {
            return false;
        }
        self.is_reached(nodes, narrow, count, start)
    }

    // Returns the form of a cursor in the tree that begins at the slot `start`, judged against the
    // present store.
    pub fn form(self, nodes: &[u64], narrow: bool, count: u64, start: u64) -> Form
        requires { HoldsIn narrow nodes.now count }
        ensures { result ≡ form_of (as_eight narrow nodes.now) count start self }
    {
        if self.is_same(start, 1, 0) {
            return Form::Fresh;
        }
        if self.is_same(U, 0, 0) {
            return Form::Ended;
        }
        if self.is_held(nodes, narrow, count, start) {
            Form::Held
        } else {
            Form::Bad
        }
    }
}
