// The rule of unloading a range, which crate unload_core computes, and what follows from it. It has
// no code.
#![tactic(auto)]
