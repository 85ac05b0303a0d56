// `build LIST`: builds a map into the slices of the store.
use crate::answer::Output;
use crate::map::reply::Reply;
use crate::room::Store;
use iset::{Map, Refusal};
use words::ix::U;

// The refusal's number, and the map that a build returns. A refused build returns the map of no
// entries, with the version of the map that it was to replace.
pub(crate) fn built(a: Result<Map, Refusal>, version: u32) -> (u64, Map) {
    match a {
        Ok(map) => (0, map),
        Err(why) => {
            let none = Map {
                count: 0,
                root: U,
                version,
            };
            (why.number(), none)
        }
    }
}

pub(crate) fn build(s: &mut Store, list: &[u64], out: &mut Output) -> Reply {
    let a = s.map.build_in(s.nodes, s.narrow, s.colours, list);
    let (no, map) = built(a, s.map.version);
    out.numbers(no, &[map.count, map.root]);
    Reply::new(map, 0)
}
