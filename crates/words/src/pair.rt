// The entries that a removal moved to another slot.

// An entry's old slot and its new one.
#[derive(Clone, Copy)]
pub struct Pair {
    pub old: u64,
    pub new: u64,
}

// The pairs of a removal, sorted by old slot. At most three entries move. An unused pair is (U, U).
// U is the undefined link.
#[derive(Clone, Copy)]
pub struct Pairs {
    pub first: Pair,
    pub second: Pair,
    pub third: Pair,
}
