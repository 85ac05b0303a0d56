// Lookups: a port of src/iter.rs. A cursor is the place of a walk: the slot that the walk is at,
// and its stack.
#![tactic(auto)]

pub mod drain;
pub mod forms;
pub mod limits;
pub mod ranges;
pub mod rules;
pub mod seek;
pub mod walk;

#[derive(Clone, Copy)]
pub struct Cursor {
    pub slot: u64,
    pub levels: u64,
    pub bits: u64,
}

// The forms of a cursor. A cursor that has none of the first three is `Bad`.
#[derive(Clone, Copy)]
pub enum Form {
    Fresh,
    Held,
    Ended,
    Bad,
}
