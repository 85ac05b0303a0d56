// `point ADDRESS`: the entry that holds an address, in a map in which no two ranges overlap.
use crate::answer::Output;
use crate::map::reply::Reply;
use crate::room::Store;
use disjoint::DisjointMap;
use words::ix::U;

// A refused lookup shows no slot and no node entered.
pub(crate) fn point(s: &Store, address: u64, out: &mut Output) -> Reply {
    let m = s.map;
    match (DisjointMap { map: m }).point_in(s.nodes, s.narrow, s.colours, address) {
        Ok(spot) => out.numbers(0, &[spot.slot, spot.entered]),
        Err(why) => out.numbers(why.number(), &[U, 0]),
    }
    Reply::new(m, 0)
}
