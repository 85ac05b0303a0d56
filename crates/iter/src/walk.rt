// The walk. Each move sets a mark or follows a link. The marks are the states of a level of the
// stack: 00 entered, 01 was left, 10 returned, 11 was right. A place has the state of its top level
// beside its cursor. A move that sets a mark or goes down knows the state after it. Only a move up
// reads it. So a move changes the bits by one addition or subtraction at the level's weight.
ghost use Rattle.std.specs.Prelude.{◌≡◌, true, false, cond, ◌&&◌, ◌^◌, ◌≤◌, ◌<◌, eqb, ltb};
ghost use Rattle.words.specs.Layouts.{as_eight, HoldsIn, HasIn};
ghost use Rattle.words.specs.Nodes.{par};
ghost use Rattle.stack.specs.States.{was_left, top};
ghost use Rattle.iter.specs.Cursors.{stack_of, up_to};
ghost use Rattle.iter.specs.Walk.{side, mark, down, deeper, move, hits, counts};
ghost use Rattle.iter.specs.Places.{Levelled, Placed, Known, at};

use crate::Cursor;
use crate::rules::Lookup;
use stack::{ENTERED, RETURNED, WAS_LEFT, WAS_RIGHT, change_state, state_at};
use words::ix::U;
use words::node::{child_of, parent_of};

// A cursor, and the state of its top level.
#[derive(Clone, Copy)]
pub struct Place {
    pub cursor: Cursor,
    pub state: u64,
}

// Returns the state that the top level gets before the walk goes down on a side.
fn side_mark(left_side: bool) -> u64
    ensures { (result ≡ side left_side) × (result < 4) }
{
    if left_side { WAS_LEFT } else { WAS_RIGHT }
}

impl Cursor {
    // Reads the state of the top level. At no live slot, one below the count, there may be no
    // level.
    pub(crate) fn place(self, count: u64) -> Place
        requires { Placed count self }
        ensures { (result.cursor ≡ self) × Known count result }
    {
        if count <= self.slot {
            return Place {
                cursor: self,
                state: ENTERED,
            };
        }
        Place {
            cursor: self,
            state: state_at(self.bits, self.levels - 1),
        }
    }

    // Gives the top level the state `new`. It has the state `old`.
    pub(crate) fn mark(self, old: u64, new: u64) -> Place
        requires { (1 ≤ self.levels) × (self.levels ≤ 32) × (old ≡ top (stack_of self)) × (new < 4) }
        ensures { result ≡ at (mark new self) }
    {
        let levels = self.levels;
        Place {
            cursor: Cursor {
                slot: self.slot,
                levels,
                bits: change_state(self.bits, levels - 1, old, new),
            },
            state: new,
        }
    }

    // Goes down on a side. The top level has the state `old`. There is no bit above it, so the new
    // level is in state 00 already.
    fn down(self, nodes: &[u64], narrow: bool, old: u64, left_side: bool) -> Place
        requires { HasIn narrow nodes.now self.slot × (1 ≤ self.levels) × (self.levels < 32) × (self.bits < 4 ^ self.levels) × (old ≡ top (stack_of self)) }
        ensures { result ≡ at (down (as_eight narrow nodes.now) left_side self) }
    {
        let levels = self.levels;
        Place {
            cursor: Cursor {
                slot: child_of(nodes, narrow, self.slot, left_side),
                levels: levels + 1,
                bits: change_state(self.bits, levels - 1, old, side_mark(left_side)),
            },
            state: ENTERED,
        }
    }

    // Goes up. The top level has the state `old`. From the last level the walk goes to U, the
    // undefined link.
    pub(crate) fn up(self, nodes: &[u64], narrow: bool, old: u64) -> Place
        requires { HasIn narrow nodes.now self.slot × (1 ≤ self.levels) × (self.levels ≤ 32) × (old ≡ top (stack_of self)) }
        ensures { result ≡ at (up_to (par (as_eight narrow nodes.now) self.slot) self) }
    {
        let levels = self.levels - 1;
        let bits = change_state(self.bits, levels, old, ENTERED);
        if levels == 0 {
            return Place {
                cursor: Cursor {
                    slot: U,
                    levels,
                    bits,
                },
                state: ENTERED,
            };
        }
        Place {
            cursor: Cursor {
                slot: parent_of(nodes, narrow, self.slot),
                levels,
                bits,
            },
            state: state_at(bits, levels - 1),
        }
    }

    // From state 00: goes left, or marks 01.
    pub(crate) fn left_or_mark(self, nodes: &[u64], narrow: bool, goes: bool) -> Place
        requires { HasIn narrow nodes.now self.slot × Levelled self × (0 ≡ top (stack_of self)) × (goes ≡ true → self.levels < 32) }
        ensures { result ≡ cond goes (at (down (as_eight narrow nodes.now) true self)) (at (mark was_left self)) }
    {
        if goes {
            self.down(nodes, narrow, ENTERED, true)
        } else {
            self.mark(ENTERED, WAS_LEFT)
        }
    }

    // From state 10: goes right, or up.
    pub(crate) fn right_or_up(self, nodes: &[u64], narrow: bool, goes: bool) -> Place
        requires { HasIn narrow nodes.now self.slot × Levelled self × (1 ≡ top (stack_of self)) × (goes ≡ true → self.levels < 32) }
        ensures { result ≡ cond goes (at (down (as_eight narrow nodes.now) false self))
            (at (up_to (par (as_eight narrow nodes.now) self.slot) self)) }
    {
        if goes {
            self.down(nodes, narrow, RETURNED, false)
        } else {
            self.up(nodes, narrow, RETURNED)
        }
    }

    // Whether the walk goes down on a side: the stack has room for one more level, and the rules
    // say so.
    fn goes_down<T: Lookup>(
        self,
        nodes: &[u64],
        narrow: bool,
        count: u64,
        lookup: T,
        left_side: bool,
    ) -> bool
        requires { HoldsIn narrow nodes.now count × (self.slot < count) }
        ensures { result ≡ deeper (T.rules lookup (as_eight narrow nodes.now) count) left_side self }
    {
        (self.levels < 32) & lookup.goes(nodes, narrow, count, self.slot, left_side)
    }
}

impl Place {
    // Makes one move.
    pub fn walk<T: Lookup>(self, nodes: &[u64], narrow: bool, count: u64, lookup: T) -> Place
        requires { HoldsIn narrow nodes.now count × (self.cursor.slot < count) × Levelled self.cursor × (self.state ≡ top (stack_of self.cursor)) }
        ensures { result ≡ at (move (as_eight narrow nodes.now) (T.rules lookup (as_eight narrow nodes.now) count) self.cursor) }
    {
        let cursor = self.cursor;
        if self.state == ENTERED {
            let goes = cursor.goes_down(nodes, narrow, count, lookup, true);
            return cursor.left_or_mark(nodes, narrow, goes);
        }
        if self.state == WAS_LEFT {
            return cursor.mark(WAS_LEFT, RETURNED);
        }
        if self.state == RETURNED {
            let goes = cursor.goes_down(nodes, narrow, count, lookup, false);
            return cursor.right_or_up(nodes, narrow, goes);
        }
        cursor.up(nodes, narrow, self.state)
    }

    // Whether a live node is on top in a state.
    pub(crate) fn is_in(self, count: u64, state: u64) -> bool
        requires { Known count self }
        ensures { result ≡ ltb self.cursor.slot count && eqb (top (stack_of self.cursor)) state }
    {
        if self.state == state {
            self.cursor.slot < count
        } else {
            false
        }
    }

    // Returns 1 if this move entered a node, else 0.
    pub fn counted(self, count: u64) -> u64
        requires { Known count self }
        ensures { (result ≡ counts count self.cursor) × (result ≤ 1) }
    {
        if self.is_in(count, ENTERED) { 1 } else { 0 }
    }

    // Whether a live node is on top in state 10, and its entry is looked for.
    pub fn is_hit<T: Lookup>(self, nodes: &[u64], narrow: bool, count: u64, lookup: T) -> bool
        requires { HoldsIn narrow nodes.now count × Known count self }
        ensures { result ≡ hits count (T.rules lookup (as_eight narrow nodes.now) count) self.cursor }
    {
        if self.is_in(count, RETURNED) {
            lookup.seeks(nodes, narrow, count, self.cursor.slot)
        } else {
            false
        }
    }
}
