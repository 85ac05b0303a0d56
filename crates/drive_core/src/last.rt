// `last`: the version of the map that the last request left, and how many hulls changed in it. A
// slot's hull is the least range that holds all entries of its subtree.
use crate::session::{Left, Session};

pub(crate) fn request(s: &mut Session) {
    match s.left {
        Some(Left::Store { stored, reach }) => s.out.line(stored.map.version as u64, &[reach]),
        _ => s.out.what(),
    }
}
