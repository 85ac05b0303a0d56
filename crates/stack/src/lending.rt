// For a caller that holds a stack by value: each function lends the stack to the call on the
// record, and returns it as that call left it. The library makes none of these calls. The program
// `drive` runs the calls on the record through them.
ghost use Rattle.std.specs.Prelude.{◌≡◌};
ghost use Rattle.std.specs.Fn.{FnOnceReturnsAtMut};
ghost use Rattle.stack.specs.Calls.{lent, push_rule, go_left_rule, make_match_rule, go_right_rule, pop_rule};

use crate::{ActionStack, lent};
use words::refusal::Refusal;

// What the call returned, and the record after it.
#[derive(Clone, Copy)]
pub struct After {
    pub outcome: Result<(), Refusal>,
    pub stack: ActionStack,
}

// Lends the stack to a call on the record.
fn lend<F: FnOnce(&mut ActionStack) -> Result<(), Refusal>>(s: ActionStack, call: F) -> After
    requires { F.IsAlwaysCallable call }
    ensures { FnOnceReturnsAtMut F.FnOnce call s result.outcome result.stack }
{
    let mut stack = s;
    let outcome = call(&mut stack);
    After { outcome, stack }
}

pub fn push(s: ActionStack) -> After
    ensures { lent result.outcome result.stack ≡ push_rule s }
{
    lend(s, lent::push)
}

pub fn go_left(s: ActionStack) -> After
    ensures { lent result.outcome result.stack ≡ go_left_rule s }
{
    lend(s, lent::go_left)
}

pub fn make_match(s: ActionStack) -> After
    ensures { lent result.outcome result.stack ≡ make_match_rule s }
{
    lend(s, lent::make_match)
}

pub fn go_right(s: ActionStack) -> After
    ensures { lent result.outcome result.stack ≡ go_right_rule s }
{
    lend(s, lent::go_right)
}

pub fn pop(s: ActionStack) -> After
    ensures { lent result.outcome result.stack ≡ pop_rule s }
{
    lend(s, lent::pop)
}
