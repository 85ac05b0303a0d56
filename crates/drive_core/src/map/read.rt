// `read SLOT TAKEN`: reads through the ticket of a slot that was taken at version TAKEN.
use crate::answer::Output;
use crate::map::reply::Reply;
use crate::room::Store;
use iset::ticket::Ticket;

// A refused reading shows zeros.
pub(crate) fn read(s: &Store, ticket: Ticket, out: &mut Output) -> Reply {
    match s.map.read_in(s.nodes, s.narrow, s.colours, ticket) {
        Ok(e) => out.numbers(0, &[e.start, e.end, e.value]),
        Err(why) => out.numbers(why.number(), &[0, 0, 0]),
    }
    Reply::new(s.map, 0)
}
