// Theory alone: what an operation does to six-word nodes is what it does to eight-word ones.
#![tactic(auto)]
