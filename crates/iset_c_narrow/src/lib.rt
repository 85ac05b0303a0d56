// The map for hosts in C and Rust over nodes of six words, as include/iset_narrow.h declares the
// calls: start, end, value, hull start, hull end, and the three links in one word of 16 bits each.
// There is one for each call of crates iset_c, iset_c_open, iset_c_ruled and iset_c_disjoint that
// is lent the words of nodes. Its promise is that call's, said of the eight-word form of the words.
//
// They are a crate of their own, and so an archive of their own. In an archive that has both
// layouts each access to a node would test which one it is.
#![tactic(auto)]

pub mod apart;
pub mod closed;
pub mod opened;
pub mod ruled;
