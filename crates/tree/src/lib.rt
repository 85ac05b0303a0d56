// The theory of a store's tree: what it is, and its laws, with no code.
#![tactic(auto)]
