// The rule of the search for the first entry that intersects a range, which crate first computes,
// and what follows from it. It has no code.
#![tactic(auto)]
