// `remove SLOT`: removes one entry.
use crate::answer::Output;
use crate::map::reply::Reply;
use crate::room::Store;
use iset::remove::Removed;
use iset::{Map, Refusal};
use words::ix::U;

// The value, the map and the pairs, as numbers.
fn numbers_of(g: Removed) -> [u64; 9] {
    let m = g.map;
    let p = g.pairs;
    let first = p.first;
    let second = p.second;
    let third = p.third;
    [
        g.value, m.count, m.root, first.old, first.new, second.old, second.new, third.old,
        third.new,
    ]
}

// A refused removal shows value 0, the map as given and no pairs.
pub(crate) fn reply_of(a: Result<Removed, Refusal>, m: Map, out: &mut Output) -> Reply {
    match a {
        Ok(g) => {
            out.numbers(0, &numbers_of(g));
            Reply::new(g.map, g.reach)
        }
        Err(why) => {
            out.numbers(why.number(), &[0, m.count, m.root, U, U, U, U, U, U]);
            Reply::new(m, 0)
        }
    }
}

pub(crate) fn remove(s: &mut Store, slot: u64, out: &mut Output) -> Reply {
    let a = s.map.remove_in(s.nodes, s.narrow, s.colours, slot);
    reply_of(a, s.map, out)
}
