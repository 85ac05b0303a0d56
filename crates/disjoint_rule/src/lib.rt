// Maps in which no two ranges overlap: the rules of their check and of their point lookup, which
// crate disjoint_core computes, and what follows from them. It has no code.
#![tactic(auto)]
