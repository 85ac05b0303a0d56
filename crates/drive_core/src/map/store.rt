// The requests that check, build, remove, insert, read, unload and renumber.
use crate::answer::Output;
use crate::given;
use crate::map::reply::Reply;
use crate::map::{build, check, insert, read, remove, renumber, unload};
use crate::room::Store;
use iset::ticket::Ticket;
use iset::{Entry, Span};

// The most numbers of a LIST.
const MOST_ITEMS: usize = 12288;

#[derive(Clone, Copy)]
pub enum Call<'a> {
    Check,
    Build(&'a [u64]),
    Remove(u64),
    Insert(Entry),
    Read(Ticket),
    Unload(u64, Span),
    Renumber(&'a [u64]),
}

// The call with the name and the numbers.
pub(crate) fn named<'a>(name: &[u8], numbers: &'a [u64]) -> Option<Call<'a>> {
    match (name, numbers) {
        (b"check", []) => Some(Call::Check),
        (b"build ", _) => given::whole_list(numbers, MOST_ITEMS).map(Call::Build),
        (b"remove ", [slot]) => Some(Call::Remove(*slot)),
        (b"insert ", [start, end, value]) => Some(Call::Insert(Entry {
            start: *start,
            end: *end,
            value: *value,
        })),
        (b"read ", [slot, taken]) => Some(Call::Read(Ticket {
            slot: *slot,
            version: given::version(*taken)?,
        })),
        (b"unload o ", _) => unload::unloading(b"o ", numbers),
        (b"unload r ", _) => unload::unloading(b"r ", numbers),
        (b"renumber ", _) => given::whole_list(numbers, MOST_ITEMS).map(Call::Renumber),
        _ => None,
    }
}

pub(crate) fn answer(call: Call, s: &mut Store, out: &mut Output) -> Reply {
    match call {
        Call::Check => check::check(s, out),
        Call::Build(list) => build::build(s, list, out),
        Call::Remove(slot) => remove::remove(s, slot, out),
        Call::Insert(e) => insert::insert(s, e, out),
        Call::Read(ticket) => read::read(s, ticket, out),
        Call::Unload(rule, range) => unload::unload(s, rule, range, out),
        Call::Renumber(plan) => renumber::renumber(s, plan, out),
    }
}
