// Lists of slots.
ghost use Rattle.std.specs.Prelude.{◌≡◌, length, replicate};

use words::ix::U;

// Room for a slot of each entry. What is not written stays U.
pub fn slot_space() -> [u64; 256]
    ensures { (result ≡ replicate 256 4294967295) × (256 ≡ length result) }
{
    [U; 256]
}
