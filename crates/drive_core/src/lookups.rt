// The requests that look up, and `propose`. They change nothing, so they are made on the store
// itself.
mod drain;
mod fresh;
mod propose;
pub mod query;
mod scan;
mod step;

use crate::room::front;
use crate::session::Session;
use iter::Cursor;
use iter::rules::Query;

// The most places of an output.
const MOST_HITS: usize = 4096;

// `room` is how many places the output has.
#[derive(Clone, Copy)]
pub enum Call {
    Fresh(Query),
    Step(Query, Cursor),
    Drain {
        query: Query,
        cursor: Cursor,
        limit: u64,
        room: usize,
    },
    Plain(Query, usize),
    FindAll(Query, usize),
    Propose(usize),
}

// The places of an output that a number is.
fn room_of(x: u64) -> Option<usize> {
    usize::try_from(x).ok().filter(|n| *n <= MOST_HITS)
}

fn cursor_of(slot: u64, levels: u64, bits: u64) -> Cursor {
    Cursor { slot, levels, bits }
}

// The call that has a query. The end of the name says which kind of query.
fn asked(name: &[u8], numbers: &[u64]) -> Option<Call> {
    let (verb, kind) = name.split_at(name.len().saturating_sub(2));
    let (query, rest) = query::split(kind, numbers)?;
    match (verb, rest) {
        (b"fresh ", []) => Some(Call::Fresh(query)),
        (b"step ", [slot, levels, bits]) => {
            Some(Call::Step(query, cursor_of(*slot, *levels, *bits)))
        }
        (b"drain ", [slot, levels, bits, limit, places]) => Some(Call::Drain {
            query,
            cursor: cursor_of(*slot, *levels, *bits),
            limit: *limit,
            room: room_of(*places)?,
        }),
        (b"plain ", [places]) => Some(Call::Plain(query, room_of(*places)?)),
        (b"find ", [places]) => Some(Call::FindAll(query, room_of(*places)?)),
        _ => None,
    }
}

// The call with the name and the numbers.
pub(crate) fn named(name: &[u8], numbers: &[u64]) -> Option<Call> {
    match (name, numbers) {
        (b"propose ", [places]) => room_of(*places).map(Call::Propose),
        _ => asked(name, numbers),
    }
}

// How many places the output has, if the call has one.
fn output_of(call: Call) -> Option<usize> {
    match call {
        Call::Fresh(_) | Call::Step(_, _) => None,
        Call::Drain { room, .. } => Some(room),
        Call::Plain(_, room) | Call::FindAll(_, room) | Call::Propose(room) => Some(room),
    }
}

// Makes the call on the store, and prints the numbers of its answer.
fn answer(s: &mut Session, call: Call, hits: &mut [u64]) {
    let stored = s.stored;
    let store = s.store.lent(stored);
    match call {
        Call::Fresh(query) => fresh::fresh(&store, query, &mut s.out),
        Call::Step(query, cursor) => step::step(&store, query, cursor, &mut s.out),
        Call::Drain {
            query,
            cursor,
            limit,
            ..
        } => drain::drain(&store, query, cursor, limit, hits, &mut s.out),
        Call::Plain(query, _) => scan::plain(&store, query, hits, &mut s.out),
        Call::FindAll(query, _) => scan::find_all(&store, query, hits, &mut s.out),
        Call::Propose(_) => propose::propose(&store, hits, &mut s.out),
    }
}

// If a call has an output, the whole output is printed after the numbers. At first each of its
// places holds a number that shows whether the call left it unchanged. `fresh` leaves nothing for
// `commit`. The others leave the store, which is unchanged.
pub(crate) fn request(s: &mut Session, call: Call) {
    let mut space = [777777; MOST_HITS];
    let places = output_of(call);
    let hits = front(&mut space, places.unwrap_or(0));
    answer(s, call, hits);
    if let Call::Fresh(_) = call {
        s.out.end();
        return;
    }
    if places.is_some() {
        s.out.list(hits);
    }
    s.begin();
    s.end(s.stored.map, 0);
}
