// What a line asks for.
use crate::asked;
use iset::{Entry, Interval, Span};
use slotshell_text::help::Usage;

// The pictures of the map.
#[derive(Clone, Copy)]
pub(crate) enum Drawing {
    Tree,
    Slots,
    Svg,
    Dot,
}

// Nothing is an empty line or a comment. Misused is a command with other things after its name than
// it takes.
#[derive(Clone, Copy)]
pub(crate) enum Command<'a> {
    Nothing,
    Unknown,
    Misused(Usage),
    Draw(Drawing),
    Check,
    Disjoint,
    Save,
    Load,
    Plan,
    Tidy,
    Help,
    Quit,
    Find(Span),
    Trace(Span),
    Plain(Span),
    Unload(Span),
    Build(&'a [u64]),
    Insert(Entry),
    Remove(u64),
    At(u64),
    Exact(Interval),
    Ticket(u64),
    Read(u64),
    Renumber(&'a [u64]),
    Point(u64),
    Fit(Entry),
}

// The command with a name that takes nothing after it.
fn bare(name: &[u8]) -> Option<Command<'static>> {
    Some(match name {
        b"tree" => Command::Draw(Drawing::Tree),
        b"slots" => Command::Draw(Drawing::Slots),
        b"svg" => Command::Draw(Drawing::Svg),
        b"dot" => Command::Draw(Drawing::Dot),
        b"check" => Command::Check,
        b"disjoint" => Command::Disjoint,
        b"save" => Command::Save,
        b"load" => Command::Load,
        b"plan" => Command::Plan,
        b"tidy" => Command::Tidy,
        b"help" => Command::Help,
        b"quit" => Command::Quit,
        _ => return None,
    })
}

// How the command with a name is used that takes numbers after it.
fn numbered(name: &[u8]) -> Option<Usage> {
    Some(match name {
        b"build" => Usage::Build,
        b"insert" => Usage::Insert,
        b"remove" => Usage::Remove,
        b"at" => Usage::At,
        b"exact" => Usage::Exact,
        b"ticket" => Usage::Ticket,
        b"read" => Usage::Read,
        b"renumber" => Usage::Renumber,
        b"point" => Usage::Point,
        b"fit" => Usage::Fit,
        _ => return None,
    })
}

// The command with a name that takes a range after it.
fn ranged(name: &[u8], rest: &[u8]) -> Option<Command<'static>> {
    Some(match (name, asked::range(rest)) {
        (b"find", Some(range)) => Command::Find(range),
        (b"trace", Some(range)) => Command::Trace(range),
        (b"plain", Some(range)) => Command::Plain(range),
        (b"unload", Some(range)) => Command::Unload(range),
        (b"find" | b"trace" | b"plain" | b"unload", None) => Command::Misused(Usage::Range),
        _ => return None,
    })
}

// The command of a use with its numbers.
fn with_numbers(usage: Usage, list: &[u64]) -> Command<'_> {
    match (usage, list) {
        (Usage::Build, _) => Command::Build(list),
        (Usage::Renumber, _) => Command::Renumber(list),
        (Usage::Insert, &[start, end, value]) => Command::Insert(Entry { start, end, value }),
        (Usage::Fit, &[start, end, value]) => Command::Fit(Entry { start, end, value }),
        (Usage::Exact, &[start, end]) => Command::Exact(Interval { start, end }),
        (Usage::Remove, &[slot]) => Command::Remove(slot),
        (Usage::At, &[address]) => Command::At(address),
        (Usage::Ticket, &[slot]) => Command::Ticket(slot),
        (Usage::Read, &[number]) => Command::Read(number),
        (Usage::Point, &[address]) => Command::Point(address),
        _ => Command::Misused(usage),
    }
}

// The command with a name, and with the rest of the line after it.
fn named<'a>(name: &[u8], rest: &[u8], room: &'a mut [u64]) -> Command<'a> {
    if let Some(command) = bare(name) {
        if asked::skip_blanks(rest).is_empty() {
            return command;
        }
        return Command::Unknown;
    }
    if let Some(command) = ranged(name, rest) {
        return command;
    }
    let Some(usage) = numbered(name) else {
        return Command::Unknown;
    };
    match asked::numbers(rest, room) {
        Some(list) => with_numbers(usage, list),
        None => Command::Misused(usage),
    }
}

// What a line asks for. A list of numbers in it is left in `room`.
pub(crate) fn command_of<'a>(line: &[u8], room: &'a mut [u64]) -> Command<'a> {
    let text = asked::skip_blanks(line);
    if text.is_empty() || text.starts_with(b"#") {
        return Command::Nothing;
    }
    let (name, rest) = asked::word(text);
    named(name, rest, room)
}
