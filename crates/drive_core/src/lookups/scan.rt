// `plain QUERY ROOM` and `find QUERY ROOM`: the lookups that find all hits at once and write them
// to an output of ROOM places. The plain one visits every entry; the fast one tests hulls.
use crate::answer::Output;
use crate::room::Store;
use iset::{Refusal, Tally};
use iter::rules::Query;

// Prints how many hits, and how many nodes were entered.
fn put(a: Result<Tally, Refusal>, out: &mut Output) {
    match a {
        Ok(t) => out.numbers(0, &[t.hits, t.entered]),
        Err(why) => out.numbers(why.number(), &[0, 0]),
    }
}

pub(crate) fn plain(s: &Store, query: Query, hits: &mut [u64], out: &mut Output) {
    put(
        s.map.plain_in(s.nodes, s.narrow, s.colours, query, hits),
        out,
    );
}

pub(crate) fn find_all(s: &Store, query: Query, hits: &mut [u64], out: &mut Output) {
    put(
        s.map.find_all_in(s.nodes, s.narrow, s.colours, query, hits),
        out,
    );
}
