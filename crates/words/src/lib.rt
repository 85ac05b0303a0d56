// What every layer shares: links, refusals, intervals and the bounds of a range, the words of a
// node in both layouts, and the entries that a removal moved.
#![tactic(auto)]

pub mod interval;
pub mod ix;
mod links;
pub mod node;
pub mod pair;
pub mod refusal;
