// `fresh QUERY`: the cursor that a lookup begins with.
use crate::answer::Output;
use crate::room::Store;
use iter::Cursor;
use iter::rules::Query;

fn put(no: u64, c: Cursor, out: &mut Output) {
    out.numbers(no, &[c.slot, c.levels, c.bits]);
}

// A refused lookup shows the ended cursor.
pub(crate) fn fresh(s: &Store, query: Query, out: &mut Output) {
    let Query::Exact(interval) = query else {
        return put(0, s.map.fresh(), out);
    };
    match s.map.fresh_exact_in(s.nodes, s.narrow, s.colours, interval) {
        Ok(c) => put(0, c, out),
        Err(why) => put(why.number(), Cursor::ended(), out),
    }
}
