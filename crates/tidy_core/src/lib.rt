// Numbering the slots of a map anew: the test of a plan, the moves that it asks for, in place, and
// the planner. A plan has, at the place of each old slot, its new one.
#![tactic(auto)]

pub mod moves;
pub mod plan;
pub mod planner;
mod tags;
