// What slotshell writes: its words, with numbers in them. Each function writes to standard output
// before it returns, and returns nothing.
#![tactic(auto)]

pub mod dot;
pub mod entry;
pub mod help;
pub mod note;
pub mod outline;
pub mod refusal;
pub mod svg;
pub mod table;
pub mod trace;
pub mod work;
