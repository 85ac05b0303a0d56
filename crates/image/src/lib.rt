// A map as bytes: an image. docs/IMAGE.md has the format. A reader first asks `has_layout`, then
// compares `count_in` with the memory it has, then asks `judge`, and then calls `load`, which
// cannot fail. A writer compares `image_length` with the room it has, and calls `write`.
#![tactic(auto)]

pub mod judge;
pub mod layout;
pub mod load;
pub mod stored;
pub mod write;
