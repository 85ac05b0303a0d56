// A plan for new slots as text: a line `old new` for each slot. `writing::put_plan` prints a plan,
// and `reading::State` reads one, in pieces, and says what is wrong with it. `memory` is what a
// program lends, for a map of 65,535 entries.
#![tactic(auto)]

mod line;
pub mod memory;
pub mod reading;
pub mod refusing;
pub mod writing;
