// Numbering the slots of a map in tree order: plans, the rule of the moves that crate tidy_core
// makes, and what follows from it. It has no code.
#![tactic(auto)]
