// The theory of looking up: theorems about the rules of crate iter, with no code.
#![tactic(auto)]
