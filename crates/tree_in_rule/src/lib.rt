// The rule of insertion, which crate tree_in computes, and what it guarantees. It has no code.
#![tactic(auto)]
