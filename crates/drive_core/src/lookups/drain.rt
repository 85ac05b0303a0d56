// `drain QUERY CURSOR LIMIT ROOM`: finds many hits at once, into an output of ROOM places.
use crate::answer::Output;
use crate::room::Store;
use iter::Cursor;
use iter::drain::Drained;
use iter::rules::Query;

// Prints how many hits, how many nodes were entered, and the next cursor.
fn put(no: u64, d: Drained, out: &mut Output) {
    let next = d.next;
    out.numbers(no, &[d.hits, d.entered, next.slot, next.levels, next.bits]);
}

// A refused drain shows no hits and the cursor as given.
pub(crate) fn drain(
    s: &Store,
    query: Query,
    cursor: Cursor,
    limit: u64,
    hits: &mut [u64],
    out: &mut Output,
) {
    match s
        .map
        .drain_in(s.nodes, s.narrow, s.colours, query, cursor, limit, hits)
    {
        Ok(d) => put(0, d, out),
        Err(why) => {
            let none = Drained {
                hits: 0,
                entered: 0,
                next: cursor,
            };
            put(why.number(), none, out);
        }
    }
}
