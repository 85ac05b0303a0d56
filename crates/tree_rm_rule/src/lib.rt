// The rule of removal, which crate tree_rm computes, and what it guarantees. It has no code.
#![tactic(auto)]
