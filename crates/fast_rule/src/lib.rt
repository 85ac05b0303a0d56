// The rule of the fast lookup, which crate fast computes, and what follows from it. It has no code.
#![tactic(auto)]
