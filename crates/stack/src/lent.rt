// The five calls that change a stack, on the record itself, as the Rust's `&mut self` does. Each
// passes a copy of the record to the call by value, and stores the stack after that call. After a
// refusal the record is unchanged.
ghost use Rattle.std.specs.Prelude.{◌≡◌};
ghost use Rattle.stack.specs.Calls.{numbers, lent, outcome_of, push_rule, go_left_rule, make_match_rule, go_right_rule, pop_rule};

use crate::ActionStack;
use words::refusal::Refusal;

// Makes a call by value on the record. The call tests nothing, so its result is not kept.
fn on_record<F: FnOnce(ActionStack) -> Result<(bool, ActionStack), Refusal>>(
    s: &mut ActionStack,
    call: F,
) -> Result<(), Refusal>
    requires { F.pre call s.old }
    ensures { (a : _) × F.post call s.old a × (result ≡ outcome_of a) × (s.new ≡ (numbers s.old a).stack) }
{
    let (_, after) = call(*s)?;
    *s = after;
    Ok(())
}

pub fn push(s: &mut ActionStack) -> Result<(), Refusal>
    ensures { lent result s.new ≡ push_rule s.old }
{
    on_record(s, ActionStack::push)
}

pub fn go_left(s: &mut ActionStack) -> Result<(), Refusal>
    ensures { lent result s.new ≡ go_left_rule s.old }
{
    on_record(s, ActionStack::go_left)
}

pub fn make_match(s: &mut ActionStack) -> Result<(), Refusal>
    ensures { lent result s.new ≡ make_match_rule s.old }
{
    on_record(s, ActionStack::make_match)
}

pub fn go_right(s: &mut ActionStack) -> Result<(), Refusal>
    ensures { lent result s.new ≡ go_right_rule s.old }
{
    on_record(s, ActionStack::go_right)
}

pub fn pop(s: &mut ActionStack) -> Result<(), Refusal>
    ensures { lent result s.new ≡ pop_rule s.old }
{
    on_record(s, ActionStack::pop)
}
