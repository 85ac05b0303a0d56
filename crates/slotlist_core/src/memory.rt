// Memory for 256 entries, all zero. The programs lend it.
ghost use Rattle.std.specs.Prelude.{◌≡◌, length, replicate};

// Eight words a slot.
pub fn node_words() -> [u64; 2048]
    ensures { (result ≡ replicate 2048 0) × (2048 ≡ length result) }
{
    [0; 2048]
}

// One bit a slot.
pub fn colour_bytes() -> [u8; 32]
    ensures { (result ≡ replicate 32 0) × (32 ≡ length result) }
{
    [0; 32]
}

// Three numbers an entry.
pub fn entry_numbers() -> [u64; 768]
    ensures { (result ≡ replicate 768 0) × (768 ≡ length result) }
{
    [0; 768]
}

// The text that is printed of 256 entries is no longer than this.
pub fn text_bytes() -> [u8; 24576]
    ensures { (result ≡ replicate 24576 0) × (24576 ≡ length result) }
{
    [0; 24576]
}
