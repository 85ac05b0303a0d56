// The bit calls, on the bytes that `bytes` gave.
use crate::room::{copy_front, front};
use crate::session::{Left, Session};
use bitvec::BitVec;
use iset::Refusal;

#[derive(Clone, Copy)]
pub enum Verb {
    Get(usize),
    Set(usize, bool),
    Push(bool),
    Pop,
    SwapRemove(usize),
    FromElem(bool),
}

// A call, and the length that it is made with.
#[derive(Clone, Copy)]
pub struct Call {
    verb: Verb,
    len: usize,
}

// The bit that a number is.
fn bit_of(x: u64) -> Option<bool> {
    match x {
        0 => Some(false),
        1 => Some(true),
        _ => None,
    }
}

// The call with the name and the numbers. The first of them is the length, then come the place and
// the bit if the call has them.
pub(crate) fn named(name: &[u8], numbers: &[u64]) -> Option<Call> {
    let [len, rest @ ..] = numbers else {
        return None;
    };
    let verb = match (name, rest) {
        (b"bget ", [i]) => Verb::Get(*i as usize),
        (b"bset ", [i, v]) => Verb::Set(*i as usize, bit_of(*v)?),
        (b"bpush ", [v]) => Verb::Push(bit_of(*v)?),
        (b"bpop ", []) => Verb::Pop,
        (b"bswap ", [i]) => Verb::SwapRemove(*i as usize),
        (b"bfrom ", [v]) => Verb::FromElem(bit_of(*v)?),
        _ => return None,
    };
    Some(Call {
        verb,
        len: *len as usize,
    })
}

fn done(call: Call, bytes: &mut [u8]) -> Result<(bool, BitVec), Refusal> {
    let v = BitVec { len: call.len };
    match call.verb {
        Verb::Get(i) => v.get(bytes, i),
        Verb::Set(i, bit) => v.set(bytes, i, bit),
        Verb::Push(bit) => v.push(bytes, bit),
        Verb::Pop => v.pop(bytes),
        Verb::SwapRemove(i) => v.swap_remove(bytes, i),
        Verb::FromElem(bit) => BitVec::from_elem(bytes, call.len, bit),
    }
}

// The length that a refused call shows: the given one, or 0 for `bfrom`.
fn refused_len(call: Call) -> usize {
    match call.verb {
        Verb::FromElem(_) => 0,
        _ => call.len,
    }
}

// Makes the call on a copy. Prints the bit and the length, then what differs in the bytes. A
// refused call shows bit 0.
pub(crate) fn request(s: &mut Session, call: Call) {
    let n = s.count;
    copy_front(&mut s.new_bytes, &s.bytes, n);
    let (no, bit, len) = match done(call, front(&mut s.new_bytes, n)) {
        Ok((bit, v)) => (0, bit, v.len),
        Err(why) => (why.number(), false, refused_len(call)),
    };
    s.out.numbers(no, &[u64::from(bit), len as u64]);
    s.out.sign();
    s.out.changes(&s.bytes, &s.new_bytes, n);
    s.out.end();
    s.left = Some(Left::Bytes(n));
}
