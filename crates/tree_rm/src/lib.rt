// The removal of one entry: a port of src/tree_rm.rs. It uses three crates: tree_links has the
// links between slots, tree_rm_repair the repair before a removal, and tree_rm_pairs the entries
// that a removal moved.
#![tactic(auto)]

pub mod remove;
