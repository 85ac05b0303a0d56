// The code for maps in which no two ranges overlap: the check's own pass over the slots, and the
// point lookup. Both hold on any words; what they mean on a store that passes the check of crate
// audit is in crate disjoint_rule.
#![tactic(auto)]

pub mod apart;
pub mod point;
