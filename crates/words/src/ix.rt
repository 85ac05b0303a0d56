// Links between slots: a link word is the number of a slot, or the undefined link U.
ghost use Rattle.std.specs.Prelude.{◌≡◌};
ghost use Rattle.words.specs.Ix.{link_of};

// The undefined link.
pub const U: u64 = 4294967295;

// Returns the slot that a link word of a store with `count` entries leads to. A word that is not
// below the count leads to no slot, whatever the words of the store are. In a store that passes the
// check of crate audit such a word is U.
pub fn slot_at(word: u64, count: u64) -> Option<u64>
    ensures { result ≡ link_of count word }
{
    if word < count { Some(word) } else { None }
}
