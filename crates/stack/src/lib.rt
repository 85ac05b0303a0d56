// The stack of a walk: a port of `ActionStack` in src/iter.rs. Each level has a state of two bits.
// Level j uses the bits 2j and 2j + 1 of one number. Here the stack is passed by value, and a call
// that changes it returns the new stack. `lent` has those calls on the record itself. `lending`
// lends them a stack that is held by value.
#![tactic(auto)]

pub mod lending;
pub mod lent;

ghost use Rattle.std.specs.Prelude.{◌≡◌, ◌*◌, ◌^◌, ◌≤◌, ◌<◌};
ghost use Rattle.stack.specs.States.{state_at_lem, put_state_lem, start, top, marked, pushed, popped};
ghost use Rattle.stack.specs.Calls.{some, numbers, push_rule, can_go_left_rule, go_left_rule, can_match_rule, make_match_rule, can_go_right_rule, go_right_rule, pop_rule, is_empty_rule};

use bitvec::weight;
use words::refusal::Refusal;

// The states of a level, written first bit then last: 00 entered, 01 was left, 10 returned, 11 was
// right. The first bit counts 1, the last one 2.
pub const ENTERED: u64 = 0;

pub const WAS_LEFT: u64 = 2;

pub const RETURNED: u64 = 1;

pub const WAS_RIGHT: u64 = 3;

#[derive(Clone, Copy)]
pub struct ActionStack {
    pub levels: u64,
    pub bits: u64,
}

// Returns the state of a level. The shift removes the levels below it. The level's two bits are
// then bit 0 and bit 1, and each is read by its weight.
pub fn state_at(bits: u64, level: u64) -> u64
    requires { level < 32 }
    ensures { result ≡ state_at_lem bits level }
{
    let own = bits >> (2 * level);
    let first = weight(0) as u64;
    let last = weight(1) as u64;
    (own & first) + (own & last)
}

// Returns the weight of the first of a level's two bits, bit 2 * level. A byte holds the bits of
// four levels. The table gives the bit's weight in its byte, which is shifted by eight bits for
// each byte below.
fn level_weight(level: u64) -> u64
    requires { level < 32 }
    ensures { result ≡ 4 ^ level }
{
    let in_byte = weight((2 * (level % 4)) as usize) as u64;
    in_byte << (8 * (level / 4))
}

// Returns the bits with another state at a level, whose state is `old`: subtracts the old state at
// the level's weight, and adds the new one.
pub fn change_state(bits: u64, level: u64, old: u64, state: u64) -> u64
    requires { (level < 32) × (old ≡ state_at_lem bits level) × (state < 4) }
    ensures { result ≡ put_state_lem bits level state }
{
    let w = level_weight(level);
    let rest = bits - old * w;
    rest + state * w
}

// Returns the bits with another state at a level.
pub fn put_state(bits: u64, level: u64, state: u64) -> u64
    requires { (level < 32) × (state < 4) }
    ensures { result ≡ put_state_lem bits level state }
{
    change_state(bits, level, state_at(bits, level), state)
}

impl ActionStack {
    // Returns a stack with one level, which was just entered.
    pub fn new() -> ActionStack
        ensures { result ≡ start }
    {
        ActionStack { levels: 1, bits: 0 }
    }

    // Whether there is a top level, and there are at most 32 levels.
    fn has_top(self) -> bool
        ensures { result ≡ some self }
    {
        (1 <= self.levels) & (self.levels <= 32)
    }

    // Returns the state of the top level.
    pub fn top(self) -> u64
        requires { (1 ≤ self.levels) × (self.levels ≤ 32) }
        ensures { result ≡ top self }
    {
        state_at(self.bits, self.levels - 1)
    }

    // Gives the top level another state.
    pub fn mark(self, state: u64) -> ActionStack
        requires { (1 ≤ self.levels) × (self.levels ≤ 32) × (state < 4) }
        ensures { result ≡ marked state self }
    {
        let levels = self.levels;
        ActionStack {
            levels,
            bits: put_state(self.bits, levels - 1, state),
        }
    }

    // Adds a level, which was just entered.
    pub fn deepen(self) -> ActionStack
        requires { self.levels < 32 }
        ensures { result ≡ pushed self }
    {
        let levels = self.levels;
        ActionStack {
            levels: levels + 1,
            bits: put_state(self.bits, levels, ENTERED),
        }
    }

    // Clears the top level and removes it.
    pub fn shorten(self) -> ActionStack
        requires { (1 ≤ self.levels) × (self.levels ≤ 32) }
        ensures { result ≡ popped self }
    {
        let levels = self.levels;
        ActionStack {
            levels: levels - 1,
            bits: put_state(self.bits, levels - 1, 0),
        }
    }

    // Each of the calls from here on returns the result of its test and the stack after the call, or
    // the refusal. The result is false if the call tests nothing.
    pub fn push(self) -> Result<(bool, ActionStack), Refusal>
        ensures { numbers self result ≡ push_rule self }
    {
        if 32 <= self.levels {
            return Err(Refusal::BadBit);
        }
        Ok((false, self.deepen()))
    }

    pub fn can_go_left(self) -> Result<(bool, ActionStack), Refusal>
        ensures { numbers self result ≡ can_go_left_rule self }
    {
        if !self.has_top() {
            return Err(Refusal::BadBit);
        }
        Ok((self.top() == ENTERED, self))
    }

    // Sets the last bit of the top level and keeps the first.
    pub fn go_left(self) -> Result<(bool, ActionStack), Refusal>
        ensures { numbers self result ≡ go_left_rule self }
    {
        if !self.has_top() {
            return Err(Refusal::BadBit);
        }
        let state = self.top() % 2 + 2;
        Ok((false, self.mark(state)))
    }

    pub fn can_match(self) -> Result<(bool, ActionStack), Refusal>
        ensures { numbers self result ≡ can_match_rule self }
    {
        if !self.has_top() {
            return Err(Refusal::BadBit);
        }
        Ok((self.top() % 2 == 0, self))
    }

    pub fn make_match(self) -> Result<(bool, ActionStack), Refusal>
        ensures { numbers self result ≡ make_match_rule self }
    {
        if !self.has_top() {
            return Err(Refusal::BadBit);
        }
        Ok((false, self.mark(RETURNED)))
    }

    pub fn can_go_right(self) -> Result<(bool, ActionStack), Refusal>
        ensures { numbers self result ≡ can_go_right_rule self }
    {
        if !self.has_top() {
            return Err(Refusal::BadBit);
        }
        Ok((self.top() < 2, self))
    }

    pub fn go_right(self) -> Result<(bool, ActionStack), Refusal>
        ensures { numbers self result ≡ go_right_rule self }
    {
        if !self.has_top() {
            return Err(Refusal::BadBit);
        }
        Ok((false, self.mark(WAS_RIGHT)))
    }

    pub fn pop(self) -> Result<(bool, ActionStack), Refusal>
        ensures { numbers self result ≡ pop_rule self }
    {
        if !self.has_top() {
            return Err(Refusal::BadBit);
        }
        Ok((false, self.shorten()))
    }

    pub fn is_empty(self) -> Result<(bool, ActionStack), Refusal>
        ensures { numbers self result ≡ is_empty_rule self }
    {
        if 32 < self.levels {
            return Err(Refusal::BadBit);
        }
        Ok((self.levels == 0, self))
    }
}
