// Numbers in lent bytes, the least byte first ("little-endian"). A slice must have the bytes that
// are asked for.
#![tactic(auto)]

ghost use Rattle.std.specs.Prelude.{◌≡◌, ◌+◌, ◌≤◌, ◌<◌, length};
ghost use Rattle.std.proofs.lemmas.List.Edits.{sets};
ghost use Rattle.little.specs.Numbers.{number, digits};

// Returns the number of the four bytes from place `at` on.
pub fn u32_at(bytes: &[u8], at: usize) -> u64
    requires { at + 4 ≤ length bytes.now }
    ensures { (result ≡ number 4 bytes.now at) × (result < 4294967296) }
{
    u64::from(u32::from_le_bytes([bytes[at], bytes[at + 1], bytes[at + 2], bytes[at + 3]]))
}

// Returns the number of the eight bytes from place `at` on.
pub fn u64_at(bytes: &[u8], at: usize) -> u64
    requires { at + 8 ≤ length bytes.now }
    ensures { result ≡ number 8 bytes.now at }
{
    let low = u32_at(bytes, at);
    let high = u32_at(bytes, at + 4);
    low + 4294967296 * high
}

// Writes the four low bytes of v, from place `at` on.
pub fn put_u32(bytes: &mut [u8], at: usize, v: u64)
    requires { at + 4 ≤ length bytes.old }
    ensures { bytes.new ≡ sets bytes.old at (digits 4 v) }
{
    let low = (v % 4294967296) as u32;
    bytes[at..at + 4].copy_from_slice(&low.to_le_bytes());
}

// Writes the eight bytes of v, from place `at` on.
pub fn put_u64(bytes: &mut [u8], at: usize, v: u64)
    requires { at + 8 ≤ length bytes.old }
    ensures { bytes.new ≡ sets bytes.old at (digits 8 v) }
{
    bytes[at..at + 8].copy_from_slice(&v.to_le_bytes());
}
