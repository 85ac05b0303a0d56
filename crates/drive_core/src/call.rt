// What a line asks for.
use crate::{bits, lookups, map, settings, stacks};
use lines::input::Line;
use stack::ActionStack;

// Nothing is a comment or an empty line. Unknown is an invalid line.
#[derive(Clone, Copy)]
pub enum Call<'a> {
    Nothing,
    Unknown,
    Setting(settings::Call<'a>),
    Map(map::Call<'a>),
    Lookup(lookups::Call),
    Bits(bits::Call),
    Stack(stacks::Call, ActionStack),
    Last,
    Ticket(u64),
}

// The call of a family.
fn family_named<'a>(name: &[u8], numbers: &'a [u64]) -> Option<Call<'a>> {
    let call = if let Some(c) = settings::named(name, numbers) {
        Call::Setting(c)
    } else if let Some(c) = map::named(name, numbers) {
        Call::Map(c)
    } else if let Some(c) = lookups::named(name, numbers) {
        Call::Lookup(c)
    } else if let Some(c) = bits::named(name, numbers) {
        Call::Bits(c)
    } else {
        let (c, stack) = stacks::named(name, numbers)?;
        Call::Stack(c, stack)
    };
    Some(call)
}

// The call with the name and the numbers. A name ends in a space if numbers follow it.
fn named<'a>(name: &[u8], numbers: &'a [u64]) -> Option<Call<'a>> {
    match (name, numbers) {
        (b"last", []) => Some(Call::Last),
        (b"ticket ", [slot]) => Some(Call::Ticket(*slot)),
        _ => family_named(name, numbers),
    }
}

// A comment may hold anything, also what would make another line wrong.
pub(crate) fn call_of<'a>(line: Line, name: &[u8], numbers: &'a [u64]) -> Call<'a> {
    let name = &name[..line.name.min(name.len())];
    let numbers = &numbers[..line.count.min(numbers.len())];
    match name {
        [b'#', ..] => Call::Nothing,
        _ if line.is_wrong() => Call::Unknown,
        [] if numbers.is_empty() => Call::Nothing,
        _ => named(name, numbers).unwrap_or(Call::Unknown),
    }
}
