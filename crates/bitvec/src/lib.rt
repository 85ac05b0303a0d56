// A vector of bits in lent bytes: a port of src/bitvec.rs. Bit i is bit i mod 8 of byte i div 8.
// The vector is its length, which is passed by value. A call that changes the length returns the
// new vector.
#![tactic(auto)]

pub mod colours;

ghost use Rattle.std.specs.Prelude.{◌≡◌, cond, ◌+◌, ◌/◌, ◌%◌, ◌^◌, ◌≤◌, ◌<◌, length, leb};
ghost use Rattle.bitvec.specs.Bits.{bit, put, bit_at, set_bit, fill};
ghost use Rattle.bitvec.specs.Calls.{allowed, roomy, bytes_for, numbers, get_rule, set_rule, set_bytes, push_rule, push_bytes, pop_rule, swap_remove_rule, gap_closed, swap_remove_bytes, from_elem_rule, from_elem_bytes};
ghost use Rattle.words.specs.Nodes.{HoldsBits, bits_of};

use words::refusal::Refusal;

#[derive(Clone, Copy)]
pub struct BitVec {
    pub len: usize,
}

// The weights of the bits of a byte: bit j weighs 2 to the j.
const WEIGHTS: [u8; 8] = [1, 2, 4, 8, 16, 32, 64, 128];

// Returns the weight of bit j.
pub fn weight(j: usize) -> u8
    requires { j < 8 }
    ensures { result ≡ 2 ^ j }
{
    WEIGHTS[j]
}

// Returns bit j of a byte. `b & weight(j)` is the weight if the bit is set, and 0 if it is not.
fn bit_of(b: u8, j: usize) -> bool
    requires { j < 8 }
    ensures { result ≡ bit b j }
{
    let found = b & weight(j);
    found != 0
}

// Returns the byte b with v in bit j. The bit is cleared first: its weight is subtracted if it is
// set. Then the weight is added if v is true.
fn with_bit(b: u8, j: usize, v: bool) -> u8
    requires { j < 8 }
    ensures { result ≡ put b j v }
{
    let w = weight(j);
    let rest = b - (b & w);
    if v { rest + w } else { rest }
}

// Returns bit i. The bytes must have it.
pub fn bit_at(bytes: &[u8], i: usize) -> bool
    requires { i / 8 < length bytes.now }
    ensures { result ≡ bit_at bytes.now i }
{
    let at = i / 8;
    bit_of(bytes[at], i % 8)
}

// Writes bit i and no other. The bytes must have it.
pub fn put_bit(bytes: &mut [u8], i: usize, v: bool)
    requires { i / 8 < length bytes.old }
    ensures { bytes.new ≡ set_bit bytes.old i v }
{
    let at = i / 8;
    bytes[at] = with_bit(bytes[at], i % 8, v);
}

// Returns how many bytes `bit_len` bits take.
fn get_byte_len(bit_len: usize) -> usize
    ensures { result ≡ bytes_for bit_len }
{
    if bit_len % 8 > 0 {
        bit_len / 8 + 1
    } else {
        bit_len / 8
    }
}

// Whether n bytes hold len bits. `len` may be any number.
fn holds(n: usize, len: usize) -> bool
    ensures { result ≡ leb len (bits_of n) }
{
    get_byte_len(len) <= n
}

// Whether bit i may be asked for: the n bytes hold the len bits, and i is below len.
fn has_bit(n: usize, len: usize, i: usize) -> bool
    ensures { result ≡ allowed n len i }
{
    holds(n, len) & (i < len)
}

// Whether n bytes have room for a bit after len bits. The length 2^64 - 1 has no next one, whatever
// n is.
fn has_room(n: usize, len: usize) -> bool
    ensures { result ≡ roomy n len }
{
    (len / 8 < n) & (len < 18446744073709551615)
}

// Returns the byte whose eight bits are v.
fn byte_of(v: bool) -> u8
    ensures { result ≡ cond v 255 0 }
{
    if v { 255 } else { 0 }
}

// Writes x to each of the first n bytes.
fn fill_bytes(bytes: &mut [u8], n: usize, x: u8)
    requires { n ≤ length bytes.old }
    ensures { bytes.new ≡ fill n x bytes.old }
{
    bytes[..n].fill(x);
}

// Copies the last of len bits to bit i, unless bit i is the last one.
fn close_gap(bytes: &mut [u8], len: usize, i: usize)
    requires { HoldsBits bytes.old len × (i < len) }
    ensures { bytes.new ≡ gap_closed bytes.old len i }
{
    if i + 1 != len {
        let last = bit_at(bytes, len - 1);
        put_bit(bytes, i, last);
    }
}

// Each call returns the bit that it read and the vector after the call, or the refusal. The bit is
// false if the call reads no bit.
impl BitVec {
    // Makes a vector of len bits, each of which is `elem`. Writes only the bytes that these bits
    // take.
    pub fn from_elem(bytes: &mut [u8], len: usize, elem: bool) -> Result<(bool, BitVec), Refusal>
        ensures { (numbers 0 result ≡ from_elem_rule bytes.old len) × (bytes.new ≡ from_elem_bytes bytes.old len elem) }
    {
        if !holds(bytes.len(), len) {
            return Err(Refusal::BadBit);
        }
        fill_bytes(bytes, get_byte_len(len), byte_of(elem));
        Ok((false, BitVec { len }))
    }

    pub fn get(self, bytes: &[u8], i: usize) -> Result<(bool, BitVec), Refusal>
        ensures { numbers self.len result ≡ get_rule bytes.now self.len i }
    {
        if !has_bit(bytes.len(), self.len, i) {
            return Err(Refusal::BadBit);
        }
        Ok((bit_at(bytes, i), self))
    }

    pub fn set(self, bytes: &mut [u8], i: usize, value: bool) -> Result<(bool, BitVec), Refusal>
        ensures { (numbers self.len result ≡ set_rule bytes.old self.len i) × (bytes.new ≡ set_bytes bytes.old self.len i value) }
    {
        if !has_bit(bytes.len(), self.len, i) {
            return Err(Refusal::BadBit);
        }
        put_bit(bytes, i, value);
        Ok((false, self))
    }

    // Writes the new bit. The other bits of its byte stay unchanged.
    pub fn push(self, bytes: &mut [u8], value: bool) -> Result<(bool, BitVec), Refusal>
        ensures { (numbers self.len result ≡ push_rule bytes.old self.len) × (bytes.new ≡ push_bytes bytes.old self.len value) }
    {
        let len = self.len;
        if !has_room(bytes.len(), len) {
            return Err(Refusal::BadBit);
        }
        put_bit(bytes, len, value);
        Ok((false, BitVec { len: len + 1 }))
    }

    // Returns the last bit. Writes no byte.
    pub fn pop(self, bytes: &[u8]) -> Result<(bool, BitVec), Refusal>
        ensures { numbers self.len result ≡ pop_rule bytes.now self.len }
    {
        let len = self.len;
        if !has_bit(bytes.len(), len, 0) {
            return Err(Refusal::BadBit);
        }
        Ok((bit_at(bytes, len - 1), BitVec { len: len - 1 }))
    }

    // Returns bit i. The last bit takes its place.
    pub fn swap_remove(self, bytes: &mut [u8], i: usize) -> Result<(bool, BitVec), Refusal>
        ensures { (numbers self.len result ≡ swap_remove_rule bytes.old self.len i) × (bytes.new ≡ swap_remove_bytes bytes.old self.len i) }
    {
        let len = self.len;
        if !has_bit(bytes.len(), len, i) {
            return Err(Refusal::BadBit);
        }
        let old_val = bit_at(bytes, i);
        close_gap(bytes, len, i);
        Ok((old_val, BitVec { len: len - 1 }))
    }
}
