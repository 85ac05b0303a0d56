// The stack calls. They use no memory and leave nothing for `commit`, which takes what an earlier
// request left.
use crate::answer::Output;
use iset::Refusal;
use stack::lending::After;
use stack::{ActionStack, lending};

#[derive(Clone, Copy)]
pub enum Call {
    Push,
    Pop,
    GoLeft,
    MakeMatch,
    GoRight,
    CanGoLeft,
    CanMatch,
    CanGoRight,
    IsEmpty,
}

// Each call has a stack: its LEVELS and its BITS.
pub(crate) fn named(name: &[u8], numbers: &[u64]) -> Option<(Call, ActionStack)> {
    let call = match name {
        b"spush " => Call::Push,
        b"spop " => Call::Pop,
        b"sleft " => Call::GoLeft,
        b"smatch " => Call::MakeMatch,
        b"sright " => Call::GoRight,
        b"scanleft " => Call::CanGoLeft,
        b"scanmatch " => Call::CanMatch,
        b"scanright " => Call::CanGoRight,
        b"sempty " => Call::IsEmpty,
        _ => return None,
    };
    match numbers {
        [levels, bits] => Some((
            call,
            ActionStack {
                levels: *levels,
                bits: *bits,
            },
        )),
        _ => None,
    }
}

// A call that tests returns the stack too, unless it is refused.
fn tested(
    a: Result<(bool, ActionStack), Refusal>,
    stack: &mut ActionStack,
) -> Result<bool, Refusal> {
    let (test, after) = a?;
    *stack = after;
    Ok(test)
}

// A call that changes the stack tests nothing. Refused or not, it leaves a stack.
fn changed(a: After, stack: &mut ActionStack) -> Result<bool, Refusal> {
    *stack = a.stack;
    a.outcome?;
    Ok(false)
}

fn done(call: Call, stack: &mut ActionStack) -> Result<bool, Refusal> {
    let given = *stack;
    match call {
        Call::Push => changed(lending::push(given), stack),
        Call::Pop => changed(lending::pop(given), stack),
        Call::GoLeft => changed(lending::go_left(given), stack),
        Call::MakeMatch => changed(lending::make_match(given), stack),
        Call::GoRight => changed(lending::go_right(given), stack),
        Call::CanGoLeft => tested(given.can_go_left(), stack),
        Call::CanMatch => tested(given.can_match(), stack),
        Call::CanGoRight => tested(given.can_go_right(), stack),
        Call::IsEmpty => tested(given.is_empty(), stack),
    }
}

// Prints the result of the test, and the stack after the call.
pub(crate) fn request(call: Call, given: ActionStack, out: &mut Output) {
    let mut stack = given;
    let (no, test) = match done(call, &mut stack) {
        Ok(test) => (0, test),
        Err(why) => (why.number(), false),
    };
    out.line(no, &[u64::from(test), stack.levels, stack.bits]);
}
