// `step QUERY CURSOR`: the next hit after a cursor, or the end.
use crate::answer::Output;
use crate::room::Store;
use iter::Cursor;
use iter::rules::Query;
use iter::seek::Step;
use words::ix::U;

// Prints the slot of the hit, the next cursor, and how many nodes were entered.
fn put(no: u64, slot: u64, next: Cursor, entered: u64, out: &mut Output) {
    out.numbers(no, &[slot, next.slot, next.levels, next.bits, entered]);
}

// A refused step shows no hit and the cursor as given.
pub(crate) fn step(s: &Store, query: Query, cursor: Cursor, out: &mut Output) {
    match s.map.step_in(s.nodes, s.narrow, s.colours, query, cursor) {
        Ok(Step::Hit(next, entered)) => put(0, next.slot, next, entered, out),
        Ok(Step::End(entered)) => put(0, U, Cursor::ended(), entered, out),
        Err(why) => put(why.number(), U, cursor, 0, out),
    }
}
