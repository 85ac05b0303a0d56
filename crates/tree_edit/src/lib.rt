// The theory that insertion and removal share, with no code: links between slots, rotations, the
// rounds of a repair, and the hulls up to the root. A slot's hull is the least range that holds all
// entries of its subtree.
#![tactic(auto)]
