// The image of a map as text that a person reads, and the image of such a text. docs/IMAGE.md has
// the form of the text. `writing::put_image` prints an image, and `reading::State` reads a text, in
// pieces, into an image. Both accept an image exactly if `judging::check` does.
#![tactic(auto)]

pub mod judging;
pub mod memory;
pub mod reading;
mod word;
pub mod writing;
