// One table of the examples that document 01 marks as proved. It has no code.
#![tactic(auto)]
