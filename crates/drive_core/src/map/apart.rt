// The requests on the store as a map in which no two ranges overlap: `checkd`, `point`, `insertd`
// and `removed`.
use crate::answer::Output;
use crate::map::reply::Reply;
use crate::map::{point, remove};
use crate::room::Store;
use disjoint::DisjointMap;
use iset::{Entry, number_of};

#[derive(Clone, Copy)]
pub enum Call {
    Check,
    Point(u64),
    Insert(Entry),
    Remove(u64),
}

// The call with the name and the numbers.
pub(crate) fn named(name: &[u8], numbers: &[u64]) -> Option<Call> {
    match (name, numbers) {
        (b"checkd", []) => Some(Call::Check),
        (b"point ", [address]) => Some(Call::Point(*address)),
        (b"insertd ", [start, end, value]) => Some(Call::Insert(Entry {
            start: *start,
            end: *end,
            value: *value,
        })),
        (b"removed ", [slot]) => Some(Call::Remove(*slot)),
        _ => None,
    }
}

fn check(s: &Store, out: &mut Output) -> Reply {
    let checked = DisjointMap { map: s.map }.check_in(s.nodes, s.narrow, s.colours);
    out.numbers(number_of(checked), &[]);
    Reply::new(s.map, 0)
}

// A refused insertion shows the map as given, and the slot that the refusal names.
fn insert(s: &mut Store, e: Entry, out: &mut Output) -> Reply {
    let m = s.map;
    match (DisjointMap { map: m }).insert_in(
        s.nodes, s.narrow, s.colours, e.start, e.end, e.value,
    ) {
        Ok(added) => {
            out.numbers(0, &[added.map.count, added.map.root, added.slot]);
            Reply::new(added.map, added.reach)
        }
        Err(blocked) => {
            out.numbers(blocked.why.number(), &[m.count, m.root, blocked.slot]);
            Reply::new(m, 0)
        }
    }
}

fn remove(s: &mut Store, slot: u64, out: &mut Output) -> Reply {
    let m = s.map;
    let a = DisjointMap { map: m }.remove_in(s.nodes, s.narrow, s.colours, slot);
    remove::reply_of(a, m, out)
}

pub(crate) fn answer(call: Call, s: &mut Store, out: &mut Output) -> Reply {
    match call {
        Call::Check => check(s, out),
        Call::Point(address) => point::point(s, address, out),
        Call::Insert(e) => insert(s, e, out),
        Call::Remove(slot) => remove(s, slot, out),
    }
}
