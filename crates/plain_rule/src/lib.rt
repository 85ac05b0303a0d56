// The rule of the plain lookup, which crate plain computes, and what follows from it. It has no
// code.
#![tactic(auto)]
