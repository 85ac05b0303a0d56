// Which entries the last change moved. A list `was` has, at the place of each slot, the old slot of
// its entry, if the entry moved.
use words::pair::{Pair, Pairs};

fn put(was: &mut [Option<u64>], p: Pair) {
    if p.old != p.new {
        if let Some(place) = was.get_mut(p.new as usize) {
            *place = Some(p.old);
        }
    }
}

// What a removal moved.
pub(crate) fn by_pairs(pairs: Pairs) -> [Option<u64>; 256] {
    let mut was = [None; 256];
    put(&mut was, pairs.first);
    put(&mut was, pairs.second);
    put(&mut was, pairs.third);
    was
}

// What a change moved that keeps the tree order. Three lists are in tree order: the slots before
// it, those of them whose entries went away, and the slots after it.
pub(crate) fn in_order(before: &[u64], gone: &[u64], after: &[u64]) -> [Option<u64>; 256] {
    let mut was = [None; 256];
    let mut gone = gone.iter();
    let mut going = gone.next();
    let mut after = after.iter();
    for old in before {
        if going == Some(old) {
            going = gone.next();
        } else if let Some(&new) = after.next() {
            put(&mut was, Pair { old: *old, new });
        }
    }
    was
}
