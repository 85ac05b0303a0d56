// Lines of text in pieces. It reads a name and decimal numbers, and writes numbers and text. It
// also reads an input that is not lines.
#![tactic(auto)]

pub mod input;
pub mod output;
pub mod streams;
pub mod whole;
