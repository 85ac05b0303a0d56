// The theory of many changes: insertions and removals one after the other, and what any list of
// them guarantees, with no code.
#![tactic(auto)]
