// Theory, and one record that the search of an image returns.
#![tactic(auto)]

// What a search for an address found: how many entries hold it, and the value of the one asked for,
// which is 0 while it was not met.
#[derive(Clone, Copy)]
pub struct Seen {
    pub hits: u64,
    pub value: u64,
}
