// `renumber LIST`: moves every entry to the slot that a plan gives it.
use crate::answer::Output;
use crate::map::reply::Reply;
use crate::room::Store;

// A refused renumbering shows the map as given.
pub(crate) fn renumber(s: &mut Store, plan: &[u64], out: &mut Output) -> Reply {
    let (no, map) = match s.map.renumber_in(s.nodes, s.narrow, s.colours, plan) {
        Ok(map) => (0, map),
        Err(why) => (why.number(), s.map),
    };
    out.numbers(no, &[map.count, map.root]);
    Reply::new(map, 0)
}
