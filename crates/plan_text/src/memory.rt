// Memory for a map of 65,535 entries, in nodes of six words, and for its image and its plan. The
// programs lend it.
ghost use Rattle.std.specs.Prelude.{◌≡◌, length, replicate};

// The bytes of the longest image, and one more, so that a longer input shows.
pub fn image_bytes() -> [u8; 2367497]
    ensures { (result ≡ replicate 2367497 0) × (2367497 ≡ length result) }
{
    [0; 2367497]
}

// Six words a slot.
pub fn node_words() -> [u64; 393210]
    ensures { (result ≡ replicate 393210 0) × (393210 ≡ length result) }
{
    [0; 393210]
}

// One bit a slot.
pub fn colour_bytes() -> [u8; 8192]
    ensures { (result ≡ replicate 8192 0) × (8192 ≡ length result) }
{
    [0; 8192]
}

// A plan in which no slot is named.
pub fn plan_numbers() -> [u64; 65535]
    ensures { (result ≡ replicate 65535 4294967295) × (65535 ≡ length result) }
{
    [4294967295; 65535]
}

// For each slot, that no line has given it away.
pub fn line_numbers() -> [u64; 65535]
    ensures { (result ≡ replicate 65535 0) × (65535 ≡ length result) }
{
    [0; 65535]
}
