// Memory for the image of 14,000 entries, all zero. The programs lend it.
ghost use Rattle.std.specs.Prelude.{◌≡◌, length, replicate};

// The bytes of the image.
pub fn image_bytes() -> [u8; 505794]
    ensures { (result ≡ replicate 505794 0) × (505794 ≡ length result) }
{
    [0; 505794]
}

// One byte more, so that a longer input shows.
pub fn input_bytes() -> [u8; 505795]
    ensures { (result ≡ replicate 505795 0) × (505795 ≡ length result) }
{
    [0; 505795]
}
