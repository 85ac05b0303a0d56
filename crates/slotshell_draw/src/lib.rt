// The drawings of a map: the tree in text, as an SVG and as a DOT picture, a table of the slots,
// the walk of a lookup, and its work. They are made from a view of the map (crate slotshell_view),
// and from what the caller knows besides. Each of them is written to standard output before its
// function returns.
#![tactic(auto)]

mod depth;
pub mod dot;
pub mod lists;
pub mod marks;
mod measures;
pub mod outline;
mod picture;
pub mod svg;
pub mod table;
pub mod walk;
pub mod work;
