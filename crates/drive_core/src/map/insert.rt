// `insert START END VALUE`: adds one entry.
use crate::answer::Output;
use crate::map::reply::Reply;
use crate::room::Store;
use iset::Entry;
use words::ix::U;

// A refused insertion shows the map as given, and no slot.
pub(crate) fn insert(s: &mut Store, e: Entry, out: &mut Output) -> Reply {
    let m = s.map;
    match m.insert_in(s.nodes, s.narrow, s.colours, e.start, e.end, e.value) {
        Ok(added) => {
            out.numbers(0, &[added.map.count, added.map.root, added.slot]);
            Reply::new(added.map, added.reach)
        }
        Err(why) => {
            out.numbers(why.number(), &[m.count, m.root, U]);
            Reply::new(m, 0)
        }
    }
}
