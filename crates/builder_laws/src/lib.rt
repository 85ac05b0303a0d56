// The theory of building: theorems about the rules of crate builder, with no code.
#![tactic(auto)]
